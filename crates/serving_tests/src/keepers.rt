ghost use Rattle.std.specs.Prelude.{◌≡◌, IfOk, length, true};
ghost use Rattle.policy_model.specs.Asks.{exports};
ghost use Rattle.child_keeper.specs.Tickets.{NamesAccount};

use child_keeper::*;
use otp_hash::{Algo, Seed};
use outside::{Accepted, Act, Bytes, Failed, Post, Role, Talk};
use outside_memory::{CallKind, Fail, MemPost, Script};
use policy_model::{
    Account, Accounts, Ask, Decision, Event, Grants, Numbers, Setup, SetupParts, Text, plain_salt,
};
use request_catalogue::{Name, Width};
use std::alloc::{AllocError, Global};
use std::test::Fail as Fault;

/// The role of a user's child.
fn user_role(session: u32, uid: u32, name: &[u8]) -> Result<Role, Fault> {
    Ok(Role::User {
        session,
        uid,
        user: Name::of(name).ok_or("a name")?,
    })
}

/// Whether these are the words for a child of this role, with nothing written after them.
fn is_launched_by(role: &Role, want: &[u8]) -> bool {
    let blank = [b'#'; 81];
    let mut out = blank;
    let len = launch_words(role, &mut out);
    &out[..len] == want && out[len..] == blank[len..]
}

#[test]
fn a_launcher_is_given_the_words_of_a_role(rt: HostRuntime) -> Result<(), Fault> {
    assert!(rt; is_launched_by(&PRE, b"child-pre 7"));
    let last = Role::Pre { session: 1_048_576 };
    assert!(rt; is_launched_by(&last, b"child-pre 1048576"));
    let user = user_role(7, 1001, b"bob")?;
    assert!(rt; is_launched_by(&user, b"child-user 7 1001 bob"));
    let longest = user_role(
        4_294_967_295,
        4_294_967_294,
        b"_23456789-123456789-123456789-12",
    )?;
    let words = b"child-user 4294967295 4294967294 _23456789-123456789-123456789-12";
    assert!(rt; is_launched_by(&longest, words));
    Ok(())
}

/// An account of this name and user number.
fn account(alloc: Global, name: &[u8], uid: u32) -> Result<Account, Fault> {
    Ok(Account {
        name: Name::of(name).ok_or("a name")?,
        uid,
        algo: Algo::Sha1,
        seed: Seed::of(b"test").ok_or("a seed")?,
        sequence: 9,
        password: 1,
        enabled: true,
        grants: Grants::of(Vec::new(alloc)),
    })
}

/// A setup with three accounts.
fn setup(alloc: Global) -> Result<Setup, Fault>
    ensures { IfOk result (λ setup. length setup.accounts ≡ 3) }
{
    let accounts = vec![in alloc;
        account(alloc, b"ann", 1000)?,
        account(alloc, b"bob", 1001)?,
        account(alloc, b"cat", 7)?,
    ]?;
    let parts = SetupParts {
        socket: Text::of(String::from_str(alloc, "otplogd.sock")?),
        launcher: Text::of(String::from_str(alloc, "otplogd")?),
        vault: Text::of(String::from_str(alloc, "vault")?),
        words: Text::of(String::from_str(alloc, "words")?),
        banner: Text::of(String::new(alloc)),
        salt: plain_salt(),
        frames: Width::Narrow,
        workers: 1,
        connections: 1,
        requests: 64,
        tries: 3,
        hold: 30_000,
        info: Numbers::of(Vec::new(alloc)),
        accounts: Accounts::of(accounts),
    };
    match Setup::of(parts) {
        Ok(setup) => Ok(setup),
        Err(_) => Err(Fault::from("in range")),
    }
}

/// A post of one connection, whose start of this number fails.
fn post(alloc: Global, number: u32) -> Result<MemPost, AllocError> {
    let scripts = vec![in alloc;
        Script {
            client: Bytes::of(alloc, b"client")?,
            pre: Bytes::of(alloc, b"export, and what nobody hears")?,
            user: Bytes::of(alloc, b"import")?,
        },
    ]?;
    let fails = [Fail {
        call: CallKind::Start,
        number,
        sent: 0,
    }];
    MemPost::new(alloc, scripts, &[6], &[5], 8, &fails)
}

/// Hears one piece of a child, and answers it.
fn hear<L: LiveChild>(child: &mut L) -> Result<(), Failed> {
    let mut buf = [0; 8];
    let _len = child.recv(&mut buf)?;
    child.send(b"ok")
}

/// The children of a session that exports, through the bound.
fn change<P: Post>(post: &mut P, setup: &Setup, export: &Event) -> Result<(), KeeperFault>
    requires exported { exports export.now ≡ true }
    requires known { NamesAccount setup.now export.now }
{
    let mut pre = start_pre(post, export.session)?;
    let _heard = hear(&mut pre);
    let ticket = UserTicket::of(export, setup);
    let mut user = start_user(post, pre, ticket, setup)?;
    let _heard = hear(&mut user);
    finish_user(post, user);
    Ok(())
}

/// One connection whose session exports, through the bound.
fn serve<P: Post>(
    post: &mut P,
    setup: &Setup,
    export: &Event,
) -> Result<Result<(), KeeperFault>, Failed>
    requires exported { exports export.now ≡ true }
    requires known { NamesAccount setup.now export.now }
{
    let conn = post.accept()?.ok_or(Failed)?;
    let changed = change(post, setup, export);
    post.hang_up(conn);
    Ok(changed)
}

/// The permitted EXPORT of session 7, for the account in the middle.
const EXPORT: Event = Event {
    worker: 0,
    session: 7,
    ask: Ask::Export { len: 6 },
    decision: Decision::Permit { value: 1 },
};

const PRE: Role = Role::Pre { session: 7 };

/// One letter for an act: `c` where a connection came, `h` where it was closed; `p` and `u` for a
/// start of the child before the login and of the user's, `x` and `y` where that failed, `P` and `U`
/// where the child was given back; `?` for all else.
fn letter(act: &Act, user: &Role) -> u8 {
    match act {
        Act::Accept {
            outcome: Accepted::Came,
        } => b'c',
        Act::HangUp => b'h',
        Act::Start {
            role,
            outcome: Ok(()),
        } if *role == PRE => b'p',
        Act::Start {
            role,
            outcome: Ok(()),
        } if role == user => b'u',
        Act::Start { role, .. } if *role == PRE => b'x',
        Act::Start { role, .. } if role == user => b'y',
        Act::Finish { role } if *role == PRE => b'P',
        Act::Finish { role } if role == user => b'U',
        _ => b'?',
    }
}

/// Whether a post tells acts with these letters.
fn tells(post: &MemPost, want: &[u8], user: &Role) -> bool {
    let acts = post.acts();
    let mut are_right = post.tells() && acts.len() == want.len();
    for (act, want) in acts.iter().zip(want) {
        are_right &= letter(act, user) == *want;
    }
    are_right
}

/// Whether this passed with a child of this role.
fn is_talk(talk: &Talk, role: &Role, taken: &[u8], sent: &[u8]) -> bool {
    talk.role == *role && talk.taken.as_slice() == taken && talk.sent.as_slice() == sent
}

/// Whether the first two children were heard and answered.
fn are_heard(talks: &[Talk], user: &Role) -> bool {
    match talks {
        [pre, next, ..] => {
            is_talk(pre, &PRE, b"export", b"ok") && is_talk(next, user, b"import", b"ok")
        }
        _ => false,
    }
}

/// The child before the login alone, through the bound.
fn leave<P: Post>(post: &mut P) -> Result<(), KeeperFault> {
    let pre = start_pre(post, 7)?;
    finish_pre(post, pre);
    Ok(())
}

/// Whether a session that exports is served, and a child before the login is given back after it.
fn is_served(post: &mut MemPost, setup: &Setup) -> bool
    requires { length setup.now.accounts ≡ 3 }
{
    serve(post, setup, &EXPORT) == Ok(Ok(())) && leave(post) == Ok(())
}

/// Whether such a session changes its child for this user's, which the post tells.
fn is_changed(post: &mut MemPost, setup: &Setup, user: &Role) -> bool
    requires { length setup.now.accounts ≡ 3 }
{
    is_served(post, setup) && tells(post, b"cpPuUhpP", user) && are_heard(post.talks(), user)
}

#[test]
fn a_session_changes_its_child_for_the_users(rt: HostRuntime) -> Result<(), Fault> {
    let user = user_role(7, 1001, b"bob")?;
    let setup = setup(rt.alloc())?;
    let mut post = post(rt.alloc(), 9)?;
    assert!(rt; is_changed(&mut post, &setup, &user));
    Ok(())
}

/// Whether a post whose start of this number fails answers so, and tells acts with these letters.
fn is_fault_at(alloc: Global, setup: &Setup, number: u32, letters: &[u8]) -> Result<bool, Fault>
    requires { length setup.now.accounts ≡ 3 }
{
    let mut post = post(alloc, number)?;
    let served = serve(&mut post, setup, &EXPORT);
    Ok(served == Ok(Err(KeeperFault)) && tells(&post, letters, &user_role(7, 1001, b"bob")?))
}

#[test]
fn no_child_outlives_a_start_that_fails(rt: HostRuntime) -> Result<(), Fault> {
    let setup = setup(rt.alloc())?;
    assert!(rt; is_fault_at(rt.alloc(), &setup, 1, b"cxh")?);
    assert!(rt; is_fault_at(rt.alloc(), &setup, 2, b"cpPyh")?);
    Ok(())
}
