//! The import record.

ghost use Rattle.std.specs.Prelude.{◌≡◌, ◌≤◌, ◌++◌, Ok, Err, IfOk, IsOkAnd, MatchResult, drop, length, take};
ghost use Rattle.request_catalogue.specs.TextBytes.{name_bytes};
ghost use Rattle.state_export.specs.Reading.{import_of, imported, state_of};
ghost use Rattle.state_export.specs.Spelling.{ImportValue, IsImport, import_bytes, import_value, state_bytes};

use crate::fault::ImportFault;
use crate::reading::read_state;
use crate::state::State;
use request_catalogue::{Name, put};

/// The most bytes that an import record is spelled by: 5, a name and an exported state of a request.
pub const IMPORT_MAX: usize = 8_229;

/// What the monitor hands to the user's child.
#[derive(Clone, Copy, PartialEq, Eq)]
pub struct Import<'a> {
    /// The user number under which the child runs.
    pub uid: u32,
    pub user: Name,
    pub state: State<'a>,
}

/// Writes an import record to the front of `out`, which has 8,229 bytes or more, and gives its
/// length. The state is handed on as it was exported, at most 8,192 bytes, whatever they spell.
pub fn write_import(uid: u32, user: &Name, state: &[u8], out: &mut [u8]) -> usize
    requires few { length state.now ≤ 8192 }
    requires room { 8229 ≤ length out.old }
    ensures len { result ≡ length (import_bytes uid (name_bytes user.now) state.now) }
    ensures within { result ≤ 8229 }
    ensures written { out.new ≡ import_bytes uid (name_bytes user.now) state.now ++ drop result out.old }
    ensures read_back { import_of (take result out.new) ≡ imported uid (name_bytes user.now) (state_of state.now) }
{
    put_import(uid, user, state, out)
}

#[tactic(auto, unfolding(crate::specs::Spelling::import_bytes))]
fn put_import(uid: u32, user: &Name, state: &[u8], out: &mut [u8]) -> usize
    requires few { length state.now ≤ 8192 }
    requires room { 8229 ≤ length out.old }
    ensures len { result ≡ length (import_bytes uid (name_bytes user.now) state.now) }
    ensures within { result ≤ 8229 }
    ensures written { out.new ≡ import_bytes uid (name_bytes user.now) state.now ++ drop result out.old }
{
    let name = user.as_slice();
    let at = put(out, 0, &uid.to_le_bytes());
    let at = put(out, at, &[name.len() as u8]);
    let at = put(out, at, name);
    put(out, at, state)
}

/// Reads the import record that the bytes spell; otherwise their first fault.
pub fn read_import(body: &[u8]) -> Result<Import<'_>, ImportFault>
    // What is read is in range and spelled so.
    ensures found { IfOk result (λ i. let v = import_value i in IsImport v
        × (body.now ≡ import_bytes v.uid v.user (state_bytes v.state))) }
    // What is in range and spelled so is read.
    ensures only { (v : ImportValue) → IsImport v → body.now ≡ import_bytes v.uid v.user (state_bytes v.state)
        → IsOkAnd result (λ i. import_value i ≡ v) }
    // The record or the first fault.
    ensures exact { MatchResult result (λ i. import_of body.now ≡ Ok (import_value i)) (λ e. import_of body.now
        ≡ Err e) }
{
    import_of(body)
}

#[tactic(auto, unfolding(crate::specs::Reading::import_of, request_catalogue::specs::Fields::number_at))]
fn import_of(body: &[u8]) -> Result<Import<'_>, ImportFault>
    ensures { MatchResult result (λ i. import_of body.now ≡ Ok (import_value i)) (λ e. import_of body.now ≡ Err e) }
{
    let [a, b, c, d, len, rest @ ..] = body else {
        return Err(ImportFault::Head);
    };
    let len = usize::from(*len);
    if len > rest.len() {
        return Err(ImportFault::Head);
    }
    let (name, state) = rest.split_at(len);
    let Some(user) = Name::of(name) else {
        return Err(ImportFault::Head);
    };
    match read_state(state) {
        Ok(state) => Ok(Import {
            uid: u32::from_le_bytes([*a, *b, *c, *d]),
            user,
            state,
        }),
        Err(fault) => Err(ImportFault::State(fault)),
    }
}
