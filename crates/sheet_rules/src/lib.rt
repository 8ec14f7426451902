// Sheets as bytes (document 01, "The sheet, mark MSH"; document 02, U4): where fields stand and what they say, which bytes are accepted and how others are
// refused, and what a run answers. Definitions and laws alone; the code is in sheet_bytes, sheet_form and sheet.
// Internal: it has no function.
#![tactic(auto)]
