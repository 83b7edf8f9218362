// The picks of a call are laid into the lent plan: "Places of the plan beyond the answer keep their bytes."
ghost use Rattle.std.specs.Prelude.{◌≡◌, [], ◌∷◌, ◌+◌, ◌*◌, ◌≤◌, length};
ghost use Rattle.rules.specs.Lent.{LentTrees};
ghost use Rattle.rules.specs.Planning.{spec_sources};
ghost use Rattle.rows.specs.InSlices.{trees_in};
ghost use Rattle.plan_passes.specs.Picks.{spec_of, specs_of, SourcesLent, PickWithin, PicksWithin};
ghost use Rattle.plan_passes.specs.Lay.{plan_in, SameTable, SameLengths, Room, SpecsLaid, SourcesWritten, SourcesLaid};

use crate::picks::PickRow;
use rows::trees::Trees;
use rules::tables::SourceId;

// The plan as a call is lent it: three numbers a spec, and for each source of each a mark, a run and the two words of a view.
#[derive(Drop)]
pub struct PlanTable<'a> {
    pub specs: &'a mut [u32],
    pub marks: &'a mut [u8],
    pub runs: &'a mut [u32],
    pub views: &'a mut [u64],
}

impl PlanTable<'_> {
    // Prefix, destination and source count of each pick.
    pub fn lay_specs(&mut self, picks: &[PickRow])
        requires { 3 * length picks.now ≤ length self.old.specs.now }
        ensures same { SameTable self.old self.new }
        ensures lengths { SameLengths self.old self.new }
        ensures laid { (t : LentTrees) → SpecsLaid (plan_in self.old) (specs_of t picks.now) (plan_in self.new) }
    {
        for k in 0..picks.len() {
            let pick = picks[k];
            let to = 3 * k;
            self.specs[to] = pick.prefix;
            self.specs[to + 1] = pick.destination;
            self.specs[to + 2] = pick.count;
        }
    }

    // One source, at place `at`. What its mark makes idle is zeros.
    fn put(&mut self, at: usize, source: SourceId)
        requires { Room (at + 1) (plan_in self.old) }
        ensures same { SameTable self.old self.new }
        ensures lengths { SameLengths self.old self.new }
        ensures put { SourcesWritten (plan_in self.old) at (source ∷ []) (plan_in self.new) }
    {
        let v = 2 * at;
        match source {
            SourceId::SortedRun(run) => {
                self.marks[at] = 1;
                self.runs[at] = run;
                self.views[v] = 0;
                self.views[v + 1] = 0;
            }
            SourceId::SstView(view) => {
                self.marks[at] = 0;
                self.runs[at] = 0;
                self.views[v] = view.high;
                self.views[v + 1] = view.low;
            }
        }
    }

    // The sources of a pick, from source `at` on; the answer is the place behind them.
    fn lay_pick(&mut self, at: usize, pick: PickRow, trees: &Trees) -> usize
        requires { PickWithin pick × SourcesLent (trees_in trees.now) × Room (at + pick.count) (plan_in self.old) }
        ensures same { SameTable self.old self.new }
        ensures lengths { SameLengths self.old self.new }
        ensures laid { (result ≡ at + pick.count) × SourcesWritten (plan_in self.old) at (spec_of (trees_in trees.now) pick).sources (plan_in self.new) }
    {
        for k in 0..pick.count as usize {
            self.put(at + k, pick.source(k, trees));
        }
        at + pick.count as usize
    }

    // The sources of the picks, one pick after another.
    pub fn lay_sources(&mut self, picks: &[PickRow], trees: &Trees)
        requires { PicksWithin picks.now × SourcesLent (trees_in trees.now) × Room (length (spec_sources (specs_of (trees_in trees.now) picks.now))) (plan_in self.old) }
        ensures same { SameTable self.old self.new }
        ensures lengths { SameLengths self.old self.new }
        ensures laid { SourcesLaid (plan_in self.old) (spec_sources (specs_of (trees_in trees.now) picks.now)) (plan_in self.new) }
    {
        let mut at = 0;
        for k in 0..picks.len() {
            at = self.lay_pick(at, picks[k], trees);
        }
    }
}
