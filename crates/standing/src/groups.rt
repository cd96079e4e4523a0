//! Who may connect to a socket.

use crate::standing::Allowed;
use std::fs;
use std::os::unix::fs::MetadataExt;

/// The permission bit of the group to write, without which none of its members may connect (unix(7)).
const GROUP_WRITE: u32 = 0o020;

/// Where the names of groups stand (group(5)).
const GROUPS: &str = "/etc/group";

/// Who may connect to the socket at a path.
pub(crate) fn who_may(rt: &HostRuntime, path: &str) -> Allowed {
    let Ok(found) = fs::metadata(rt, path) else {
        return Allowed::Unknown;
    };
    if found.mode() & GROUP_WRITE == 0 {
        return Allowed::Owner(found.uid());
    }
    let id = found.gid();
    Allowed::Group(id, name_of(rt, id))
}

/// The name of a group, where it is listed.
fn name_of(rt: &HostRuntime, id: u32) -> Option<String> {
    let text = fs::read_to_string(rt, GROUPS).ok()?;
    for line in text.lines() {
        let mut fields = line.split(':');
        let (name, _, number) = (fields.next()?, fields.next(), fields.next());
        if number.and_then(|number| number.parse::<u32>().ok()) == Some(id) {
            return String::from_str(rt.alloc(), name).ok();
        }
    }
    None
}
