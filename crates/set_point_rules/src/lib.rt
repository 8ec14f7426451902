// The set-point of a rule (document 02, U8): what is asked, what is answered, and what is promised of it. Definitions and laws, and the answer; the code is
// in set_point.
// Public: no function asks anything of its caller, and each contract gives the answer as a definition does.
#![tactic(auto)]

/// The old value, and how far its new value is below the wanted one.
#[derive(Clone, Copy, Debug, PartialEq, Eq, Hash)]
pub struct SetPoint {
    pub old: i64,
    pub remainder: i64,
}
