// What a chart reader hands out (document 01), and what is promised of it. Definitions and laws, and what is handed out; the code is in reader.
// Public: no function asks anything of its caller, and each contract gives the answer as a definition does.
#![tactic(auto)]

/// A block of a chart: its label, and its targets by action. A target is a block's number, or 255 for barred, and 255 past the last action.
#[derive(Clone, Copy, Debug, PartialEq, Eq, Hash)]
pub struct Block {
    pub label: u16,
    pub targets: [u8; 8],
}
