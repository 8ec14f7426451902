// The reading of an action sequence on a sheet that passed its check.
ghost use Rattle.std.specs.Prelude.{◌≡◌, ℕ, ◌+◌, ◌≤◌, ◌<◌, length, get_or, IfSome, Ok};
ghost use Rattle.answer_rules.specs.Run.{ran_by, left_by};
ghost use Rattle.model.specs.Sheet.{sheet_reading};
ghost use Rattle.sheet_rules.specs.Layout.{actions_of, regions_of};
ghost use Rattle.sheet_rules.specs.Decode.{decode};
ghost use Rattle.sheet_rules.specs.Check.{sheet_check};
ghost use Rattle.sheet.specs.Walk.{At, Acts, entry_by};

use answers::{Run, noted};
use sheet_bytes::space::land;
use sheet_bytes::{Config, Sheet};

// Where a walk is: the configuration, and the region that it is in.
#[derive(Clone, Copy)]
pub(crate) struct Place {
    pub config: Config,
    pub region: usize,
}

// Takes one action: where it leads, none if it is barred.
fn act(s: &Sheet<'_>, from: Place, action: usize) -> Option<Place>
    requires s_value { sheet_check s.now ≡ Ok tt }
    requires at { At s.now from.config from.region }
    requires action_bound { action < actions_of s.now }
    ensures { Acts s.now from action result }
{
    let m = s.move_at(from.region, action)?;
    let config = land(from.config, m);
    let region = s.region_of(config);
    Some(Place { config, region })
}

// What an action writes: the label where it leads, 65,535 if it is barred.
fn entry(s: &Sheet<'_>, next: Option<Place>) -> u16
    requires { IfSome next (λ to. to.region < regions_of s.now) }
    ensures { result ≡ entry_by s.now next }
{
    match next {
        Some(to) => s.label_at(to.region),
        None => 65535,
    }
}

// Writes the label of the start and an entry for each action. A barred action leaves the walk where it is.
pub(crate) fn walk(s: &Sheet<'_>, actions: &[u8], entries: &mut [u16]) -> Run
    requires s_value { sheet_check s.now ≡ Ok tt }
    requires by_index { (n : ℕ) → n < length actions.now → get_or actions.now n 0 < actions_of s.now }
    requires actions_in_bounds { length actions.now + 1 ≤ length entries.old }
    ensures value { Ok result ≡ ran_by (Ok tt) (sheet_reading (decode s.now) actions.now) }
    ensures entries_after { entries.new ≡ left_by (Ok tt) (sheet_reading (decode s.now) actions.now) entries.old }
{
    let config = s.start();
    let region = s.region_of(config);
    let mut place = Place { config, region };
    let mut first = None;
    entries[0] = s.label_at(region);
    for (n, &action) in actions.iter().enumerate() {
        let next = act(s, place, action as usize);
        place = next.unwrap_or(place);
        entries[n + 1] = entry(s, next);
        first = noted(first, n, next.is_none());
    }
    Run {
        entries: actions.len() + 1,
        barred: first,
    }
}
