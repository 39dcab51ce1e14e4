use crate::Config;

/// The first line of a schedule: its form, and how many actors it says that there are. Form 1 has no count of controllers, and means
/// one; form 2 has it; form 3 has it, and a count of observers. Which forms give which configurations is said in `specs/Headers`.
#[derive(Clone, Copy, PartialEq, Eq)]
pub struct Header {
    pub form: u8,
    pub config: Config,
}
