//! Rows of a dialogue.

ghost use Rattle.std.specs.Prelude.{◌≡◌, List, Some};
ghost use Rattle.request_catalogue.specs.Catalogue.{RequestValue};
ghost use Rattle.request_catalogue.specs.Replies.{AnswerValue};
ghost use Rattle.child_protocol.specs.Says.{Role, says, exchanges_of};
ghost use Rattle.child_protocol.specs.Phases.{IsAllowed};
ghost use Rattle.child_protocol.specs.Rows.{IsPreDialogue, IsUserDialogue};

/// A law.
pub fn pre_dialogue()
    ensures { IsPreDialogue }
{}

/// A law.
pub fn user_dialogue()
    ensures { IsUserDialogue }
{}

/// A law: the phase table has a cell for each request of either child, in the phase that its
/// answers give, and no request that is permitted once was had before.
pub fn each_request_is_allowed()
    ensures { (role : Role) (answers : List AnswerValue) (request : RequestValue) → says role answers ≡ Some request
        → IsAllowed role request (exchanges_of role answers) }
{}
