//! The texts of the statements.

/// Makes the table of the record.
pub const MAKE_RECORD: &str =
    "CREATE TABLE record(id INTEGER PRIMARY KEY CHECK (id = 1), body BLOB NOT NULL) STRICT";

/// Makes the table of the objects.
pub const MAKE_OBJECTS: &str =
    "CREATE TABLE objects(id INTEGER PRIMARY KEY AUTOINCREMENT, body BLOB NOT NULL) STRICT";

/// Puts a body in the first row of the record.
pub const FIRST_RECORD: &str = "INSERT INTO record VALUES (1, ?1)";

/// Puts another body in the record's row.
pub const SET_RECORD: &str = "UPDATE record SET body = ?1";

/// The body in each row of the record's table.
pub const READ_RECORD: &str = "SELECT body FROM record";

/// Adds a row with a body to the table of the objects.
pub const INSERT_OBJECT: &str = "INSERT INTO objects (body) VALUES (?1)";

/// Puts another body in the row with an id.
pub const REPLACE_OBJECT: &str = "UPDATE objects SET body = ?2 WHERE id = ?1";

/// Takes out the row with an id.
pub const REMOVE_OBJECT: &str = "DELETE FROM objects WHERE id = ?1";

/// Takes out the rows of all objects.
pub const CLEAR_OBJECTS: &str = "DELETE FROM objects";

/// The body in the row with an id.
pub const READ_OBJECT: &str = "SELECT body FROM objects WHERE id = ?1";

/// The ids of all objects, in order.
pub const READ_IDS: &str = "SELECT id FROM objects ORDER BY id";

/// The id and the body in each row of the table of the objects.
pub const READ_OBJECTS: &str = "SELECT id, body FROM objects";
