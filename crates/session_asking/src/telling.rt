//! What is told of a permitted request besides what its operation gave.

ghost use Rattle.std.specs.Prelude.{◌≡◌, ◌<◌, ◌≤◌, ℕ, ◌||◌, IfSome, Some, if◌then◌else◌, length, nat_le, nat_lt};
ghost use Rattle.std.specs.Prelude.{false, option_map, slice_get, take};
ghost use Rattle.std.specs.Int.{w32, to_le_bytes};
ghost use Rattle.policy_model.specs.Asks.{is_lost, shown_of};
ghost use Rattle.policy_model.specs.declared.reading.TheConstants.{DECOYS_FROM};
ghost use Rattle.policy_model.specs.Logins.{account_of};
ghost use Rattle.policy_model.specs.Settings.{IsInRange, same_name};
ghost use Rattle.policy_model.specs.Verdict.{NamesRule};
ghost use Rattle.request_catalogue.specs.Widths.{body_max};
ghost use Rattle.request_catalogue.specs.declared.width.Width.{Width};
ghost use Rattle.request_catalogue.specs.Replies as replies;
ghost use Rattle.service_model.specs.Answers.{challenge_text, info_text};
ghost use Rattle.service_model.specs.Cases.{imported_state};
ghost use Rattle.session_asking.specs.Known.{account_in};
ghost use Rattle.session_asking.specs.Made.{exported_bytes, naming_of};
ghost use Rattle.session_asking.specs.Work.{Fits, IsSmall, answered, told, told_of};

use crate::live::{LoggedIn, account_at, account_of};
use crate::names::Names;
use crate::texts::Texts;
use crate::work::Outcome;
use crate::writing::write;
use info_hooks::Card;
use otp_words::challenge_text;
use policy_model::{Account, Ask, DECOYS_FROM, Decision, Decoy, Event, Setup, shown};
use request_catalogue::{Answer, Name};
use state_export::write_import;

/// What answers are made from: what the run serves by, the session's user and what was exported.
#[derive(Drop)]
pub(crate) struct Source<'a, T: Texts> {
    pub texts: &'a T,
    pub user: &'a Option<LoggedIn>,
    pub state: &'a [u8],
    pub names: &'a Names,
}

/// Writes what is told of a permitted request into the front of the piece, where it is more than its
/// operation gave.
pub(crate) fn tell<T: Texts>(
    source: &Source<'_, T>,
    event: &Event,
    outcome: Outcome,
    piece: &mut [u8],
) -> Outcome
    requires room { 16000 ≤ length piece.old }
    requires few { length source.now.state.now ≤ 8192 }
    requires fits { Fits outcome (length piece.old) }
    requires small { IsSmall event.now.ask event.now.decision }
    ensures told { let service = T.service source.now.texts.now in told result piece.new ≡ told_of service
        source.now.state.now (account_in service.setup source.now.user.now) event.now.ask event.now.decision
        (told outcome piece.old) }
    ensures piece { Fits result (length piece.new) × (length piece.new ≡ length piece.old) }
{
    let Decision::Permit { value } = event.decision else {
        return outcome;
    };
    let texts = source.texts;
    match event.ask {
        Ask::Banner => Outcome::Done {
            len: write(texts.setup().parts().banner.as_str().as_bytes(), piece),
        },
        Ask::Challenge { user, .. } => Outcome::Done {
            len: challenge(texts.setup(), source.names, &user, value, piece),
        },
        Ask::Import => Outcome::Done {
            len: import(texts, source.user, source.state, piece),
        },
        Ask::OpenFile { .. } => Outcome::Done {
            len: write(&(value as u32).to_le_bytes(), piece),
        },
        Ask::Info { number } => Outcome::Done {
            len: info(texts, source.user, number, value as u16, piece),
        },
        _ => outcome,
    }
}

/// What a challenge names. It stays a call, so that both are made before it, whichever it is: so the time
/// doesn't tell which names are users'.
#[inline(never)]
fn named_by(value: u64, own: Option<Decoy>, decoy: Decoy) -> Option<Decoy>
    requires own { IfSome own (λ own. own.n ≤ 9999) }
    requires decoy { decoy.n ≤ 9999 }
    ensures value { result ≡ if nat_lt value DECOYS_FROM then own else Some decoy }
    ensures bound { IfSome result (λ named. named.n ≤ 9999) }
{
    if value < DECOYS_FROM {
        own
    } else {
        Some(decoy)
    }
}

/// Writes a challenge into the front of the piece: that of the user's account, or a decoy's.
fn challenge(setup: &Setup, names: &Names, user: &Name, value: u64, piece: &mut [u8]) -> usize
    requires room { 16000 ≤ length piece.old }
    ensures within { result ≤ length piece.new }
    ensures text { take result piece.new ≡ challenge_text setup.now user.now value }
{
    let decoy = setup.decoy(user);
    let own = own_naming(account_for(setup, names, user, value), value);
    match named_by(value, own, decoy) {
        Some(named) => challenge_text(named.algo, named.n, &named.seed, piece),
        None => 0,
    }
}

/// What the challenge of an account names. From the decoys' numbers on it isn't used.
fn own_naming(account: Option<&Account>, value: u64) -> Option<Decoy>
    ensures value { value < DECOYS_FROM → result ≡ naming_of value (option_map (λ a. a.now) account.entry) }
    ensures bound { IfSome result (λ own. own.n ≤ 9999) }
{
    match account {
        Some(account) => Some(Decoy {
            algo: account.algo,
            n: (value % DECOYS_FROM) as u16,
            seed: account.seed,
        }),
        None => None,
    }
}

/// The user's account, if there is one. From the decoys' numbers on it is any account, which isn't used.
fn account_for<'s>(setup: &'s Setup, names: &Names, user: &Name, value: u64) -> Option<&'s Account>
    ensures { value < DECOYS_FROM → option_map (λ a. a.now) result ≡ account_of setup.now user.now }
{
    match numbered(setup, names.likely(user)) {
        Some(account) if is_for(account, user, value) => Some(account),
        _ => account_named(setup, user),
    }
}

/// The account of a number, if there is one.
fn numbered(setup: &Setup, number: usize) -> Option<&Account>
    ensures account { option_map (λ a. a.now) result ≡ slice_get setup.now.accounts number }
    ensures in_range { IsInRange setup.now }
{
    setup.parts().accounts.as_slice().get(number)
}

/// Whether an account is the user's, or isn't used.
fn is_for(account: &Account, user: &Name, value: u64) -> bool
    ensures { result ≡ (same_name account.now.name user.now || nat_le DECOYS_FROM value) }
{
    same_name(&account.name, user) || value >= DECOYS_FROM
}

/// Whether two names are the same.
fn same_name(a: &Name, b: &Name) -> bool
    ensures { result ≡ same_name a.now b.now }
{
    a == b
}

/// The account of a name, if the setup has one.
fn account_named<'s>(setup: &'s Setup, user: &Name) -> Option<&'s Account>
    ensures { option_map (λ a. a.now) result ≡ account_of setup.now user.now }
{
    match setup.find(user) {
        Some(number) => account_at(setup, number),
        None => None,
    }
}

#[tactic(auto, using(crate::proofs::Done::taken))]
/// Writes the imported state into the front of the piece: whose it is, and what was exported.
fn import<T: Texts>(texts: &T, user: &Option<LoggedIn>, state: &[u8], piece: &mut [u8]) -> usize
    requires room { 16000 ≤ length piece.old }
    requires few { length state.now ≤ 8192 }
    ensures within { result ≤ length piece.new }
    ensures text { take result piece.new ≡ imported_state (account_in (T.service texts.now).setup user.now) state.now }
{
    match account_of(texts, user) {
        Some(account) => write_import(account.uid, &account.name, state, piece),
        None => 0,
    }
}

/// Writes the information of a number, said of the user, into the front of the piece.
fn info<T: Texts>(
    texts: &T,
    user: &Option<LoggedIn>,
    number: u32,
    sequence: u16,
    piece: &mut [u8],
) -> usize
    requires room { 16000 ≤ length piece.old }
    ensures within { result ≤ length piece.new }
    ensures text { take result piece.new ≡ info_text (T.service texts.now).forms number
        (account_in (T.service texts.now).setup user.now) sequence }
{
    let Some(account) = account_of(texts, user) else {
        return 0;
    };
    let card = Card {
        name: account.name,
        uid: account.uid,
        algo: account.algo,
        sequence,
    };
    match texts.say(number, &card) {
        Some(text) => write(text.as_slice(), piece),
        None => 0,
    }
}

/// The answer to a decision that isn't lost, by what came of its operation.
pub(crate) fn answer_of<'a>(decision: &Decision, outcome: &Outcome, piece: &'a [u8]) -> Answer<'a>
    requires kept { is_lost decision.now ≡ false }
    requires named { NamesRule decision.now }
    requires fits { Fits outcome.now (length piece.now) }
    ensures sendable { (width : Width) → length piece.now < body_max width
        → replies.IsSendable width (replies.answer_of result) }
    ensures answer { Some (replies.answer_of result) ≡ answered (shown_of decision.now) (told outcome.now piece.now) }
{
    match shown(decision) {
        Decision::Permit { .. } => match *outcome {
            Outcome::Done { len } => Answer::Done {
                body: &piece[..len],
            },
            Outcome::Failed { device } => Answer::Device { device },
        },
        Decision::Deny { rule, detail } => Answer::Denied { rule, detail },
        Decision::Lost => unreachable!(),
    }
}
