use ck_types::{SessionState, UserType};
use sessions::*;
use std::alloc::Global;
use std::test::Fail;

// Work that is a count of steps.
#[derive(Clone, Copy, Debug, Drop, PartialEq, Eq)]
struct Steps {
    taken: u32,
}

impl Activity for Steps {
    ghost idle = { record { taken = 0 } };

    fn idle() -> Self {
        Steps { taken: 0 }
    }
}

/// The next session, while nobody is logged in.
fn opened(sessions: &mut Sessions<Steps>, read_write: bool) -> Result<u64, Fail> {
    if sessions.has_numbers() && !sessions.is_full() && sessions.logged_in().is_none() {
        Ok(sessions.open(read_write)?)
    } else {
        Err("no session can be opened".into())
    }
}

/// Whether the session is there, with its access, until it is closed, and the one before it is closed.
fn is_closed_once(sessions: &mut Sessions<Steps>, session: u64, read_write: bool) -> bool {
    !sessions.has(session.saturating_sub(1))
        && sessions.is_read_write(session) == Some(read_write)
        && sessions.close(session) == Some(Steps { taken: 0 })
        && !sessions.has(session)
}

#[test]
fn a_closed_session_never_returns(rt: HostRuntime) -> Result<(), Fail> {
    let mut sessions: Sessions<Steps> = Sessions::new(rt.alloc());
    for number in 1..=200u64 {
        let session = opened(&mut sessions, number % 2 == 0)?;
        assert_eq!(rt; session, number);
        let is_closed = is_closed_once(&mut sessions, number, number % 2 == 0);
        assert!(rt; is_closed, "session {number}");
    }
    assert_eq!(rt; sessions.next_number(), 201);
    Ok(())
}

#[test]
fn a_session_has_the_state_of_its_access_and_the_login(rt: HostRuntime) -> Result<(), Fail> {
    let table = [
        (false, None, SessionState::RoPublic),
        (false, Some(UserType::User), SessionState::RoUser),
        (true, None, SessionState::RwPublic),
        (true, Some(UserType::User), SessionState::RwUser),
        (true, Some(UserType::So), SessionState::RwSo),
    ];
    for (read_write, login, want) in table {
        let state = state_of(rt.alloc(), read_write, login)?;
        assert_eq!(rt; state, Some(want));
    }
    Ok(())
}

/// The state of an only session, after this login.
fn state_of(
    alloc: Global,
    read_write: bool,
    login: Option<UserType>,
) -> Result<Option<SessionState>, Fail> {
    let mut sessions: Sessions<Steps> = Sessions::new(alloc);
    let session = sessions.open(read_write)?;
    if let Some(user) = login {
        if user == UserType::So && sessions.has_read_only() {
            return Err("a read-only session".into());
        }
        sessions.login(user);
    }
    Ok(sessions.state(session))
}

#[test]
fn the_last_close_ends_the_login(rt: HostRuntime) -> Result<(), Fail> {
    let mut sessions: Sessions<Steps> = Sessions::new(rt.alloc());
    let first = sessions.open(true)?;
    let second = sessions.open(false)?;
    assert_eq!(rt; (sessions.count(), sessions.read_write_count()), (2, 1));
    sessions.login(UserType::User);
    sessions.close(first);
    assert_eq!(rt; sessions.logged_in(), Some(UserType::User));
    sessions.close(second);
    assert_eq!(rt; sessions.logged_in(), None);

    let third = sessions.open(true)?;
    sessions.login(UserType::So);
    sessions.close_all();
    assert_eq!(rt; (sessions.logged_in(), sessions.state(third)), (None, None));
    Ok(())
}

#[test]
fn a_logout_ends_what_is_under_way(rt: HostRuntime) -> Result<(), Fail> {
    let mut sessions: Sessions<Steps> = Sessions::new(rt.alloc());
    let session = sessions.open(true)?;
    sessions.login(UserType::User);
    if let Some(steps) = sessions.work_mut(session) {
        steps.taken = 3;
    }
    let before = steps_of(&sessions, session);
    sessions.logout();
    assert_eq!(rt; (before, steps_of(&sessions, session)), (Some(3), Some(0)));
    assert_eq!(rt; sessions.state(session), Some(SessionState::RwPublic));
    Ok(())
}

fn steps_of(sessions: &Sessions<Steps>, session: u64) -> Option<u32> {
    Some(sessions.work(session)?.taken)
}
