// One action on a chart whose targets are blocks or 255.
ghost use Rattle.std.specs.Prelude.{◌≡◌, ◌<◌, IfSome};
ghost use Rattle.std.specs.Option.{ForSome};
ghost use Rattle.systems.specs.System.{entry};
ghost use Rattle.model.specs.Chart.{actions_of, blocks_of, chart_step, chart_system};
ghost use Rattle.model.specs.Rounds.{TargetsRight};

use crate::chart::Chart;

impl<'a> Chart<'a> {
    /// Where an action leads from a block: to its target, or nowhere where it is barred.
    pub fn act(&self, block: usize, action: usize) -> Option<usize>
        requires targets_right { TargetsRight self.now }
        requires block_bound { (block < blocks_of self.now) × (action < actions_of self.now) }
        ensures step { result ≡ chart_step self.now action block }
        ensures target_there { IfSome result (λ target. target < blocks_of self.now) }
    {
        let target = self.target_of(block, action);
        if target == 255 { None } else { Some(target) }
    }

    /// What an action writes, by where it leads: the label there, or 65,535.
    pub fn entry_of(&self, target: Option<usize>) -> u16
        requires { ForSome target (λ block. block < blocks_of self.now) }
        ensures { result ≡ entry (chart_system self.now) target }
    {
        match target {
            Some(block) => self.label(block),
            None => 65535,
        }
    }
}
