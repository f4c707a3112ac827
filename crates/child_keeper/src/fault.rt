/// A child could not be started. It is answered only where the post's count of such faults rose in
/// the same call, and no child that the call was to start or was handed lives on.
#[derive(Clone, Copy, PartialEq, Eq)]
pub struct KeeperFault;
