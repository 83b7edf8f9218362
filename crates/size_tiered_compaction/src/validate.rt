// Validation of a spec: slatedb's validate, over a tree's rows as they lie in the lent slices.
ghost use Rattle.std.specs.Prelude.{◌≡◌, [], ◌∷◌, map, ◌+◌, ◌-◌, ◌*◌, ◌≤◌, length};
ghost use Rattle.std.proofs.Math.Option.{some};
ghost use Rattle.rules.specs.Tables.{Tree, id_of};
ghost use Rattle.rules.specs.Lent.{rows_from, trees_of, l0_used, runs_used};
ghost use Rattle.rules.specs.Validation.{starts_with, consecutive, lowest_run, wrong_destination, logical_order, tree_with, tiered_refusal};
ghost use Rattle.rules.specs.Answers.{refused, validate_answer};
ghost use Rattle.rules.specs.Calls.{validate_call};
ghost use Rattle.rows.specs.InSlices.{trees_in, sources_in};
ghost use Rattle.size_tiered_compaction.specs.LogicalOrder.{order_in, places_in, named_in, names_in, Agree, spec_in, lowest_of, joined_low};

use rows::sources::Sources;
use rows::trees::Trees;
use rules::answers::Refusal;
use rules::tables::{Kind, SourceId, Ulid};

// A spec to validate, with sources of its own. Its kind is a number as C hands it in: any may stand there until refusal 2 has
// looked.
#[derive(Clone, Copy)]
pub struct Spec<'a> {
    pub drain: u8,
    pub prefix: u32,
    pub destination: u32,
    pub sources: Sources<'a>,
}

// "the tree's L0 then runs, as one list": the ids of its `rows` L0 rows, and those of its runs.
#[derive(Clone, Copy)]
pub struct LogicalOrder<'a> {
    rows: usize,
    l0_ids: &'a [u64],
    run_ids: &'a [u32],
}

impl LogicalOrder<'_> {
    // What stands at place `q`.
    fn at(&self, q: usize) -> SourceId
        requires { (4 * self.now.rows ≤ length self.now.l0_ids.now) × (q + 1 ≤ places_in self.now) }
        ensures { result ≡ order_in self.now q }
    {
        if q < self.rows {
            return SourceId::SstView(Ulid {
                high: self.l0_ids[4 * q],
                low: self.l0_ids[4 * q + 1],
            });
        }
        SourceId::SortedRun(self.run_ids[q - self.rows])
    }

    // Whether the sources stand one after the other from place `p` on.
    fn starts_with(&self, p: usize, sources: &Sources) -> bool
        requires { (4 * self.now.rows ≤ length self.now.l0_ids.now) × (p ≤ places_in self.now) × Agree sources.now }
        ensures { result ≡ starts_with (rows_from (order_in self.now) p (places_in self.now - p)) (names_in sources.now) }
    {
        let places = self.rows + self.run_ids.len();
        for k in 0..sources.marks.len() {
            if p + k == places {
                return false;
            }
            let source = sources.at(k);
            if self.at(p + k) != source.id() {
                return false;
            }
        }
        true
    }

    // "sources not consecutive": whether they stand somewhere in the list.
    fn holds(&self, sources: &Sources) -> bool
        requires { (4 * self.now.rows ≤ length self.now.l0_ids.now) × Agree sources.now }
        ensures { result ≡ consecutive (rows_from (order_in self.now) 0 (places_in self.now)) (names_in sources.now) }
    {
        let places = self.rows + self.run_ids.len();
        for p in 0..places {
            if self.starts_with(p, sources) {
                return true;
            }
        }
        self.starts_with(places, sources)
    }
}

// The lower of the lowest run so far, if there is one, and one source more.
fn lower(low: Option<u32>, source: SourceId) -> Option<u32>
    ensures { lowest_of result ≡ joined_low (lowest_of low) (lowest_run (source ∷ [])) }
{
    match source {
        SourceId::SstView(_) => low,
        SourceId::SortedRun(run) => match low {
            None => Some(run),
            Some(x) => { if run < x { Some(run) } else { Some(x) } }
        },
    }
}

// "the lowest run among the sources", if there is a run.
fn lowest_run(sources: &Sources) -> Option<u32>
    requires { Agree sources.now }
    ensures { lowest_of result ≡ lowest_run (names_in sources.now) }
{
    let mut low = None;
    for k in 0..sources.marks.len() {
        low = lower(low, sources.at(k).id());
    }
    low
}

// "destination not the lowest run among the sources"; "With no run among them the destination is not looked at."
fn destination_wrong(sources: &Sources, destination: u32) -> bool
    requires { Agree sources.now }
    ensures { result ≡ wrong_destination destination (lowest_run (names_in sources.now)) }
{
    match lowest_run(sources) {
        None => false,
        Some(x) => destination != x,
    }
}

// "then .. 7, 8, 9", against the rows of the spec's tree.
fn check_sources(order: &LogicalOrder, spec: &Spec) -> Result<(), Refusal>
    requires { (4 * order.now.rows ≤ length order.now.l0_ids.now) × Agree spec.now.sources }
    ensures { (t : Tree) → logical_order t ≡ rows_from (order_in order.now) 0 (places_in order.now) → refused result ≡ tiered_refusal (map id_of (sources_in spec.now.sources)) spec.now.destination (some t) }
{
    if spec.sources.marks.len() == 0 {
        return Err(Refusal::NoSources);
    }
    if !order.holds(&spec.sources) {
        return Err(Refusal::NotConsecutive);
    }
    if destination_wrong(&spec.sources, spec.destination) {
        return Err(Refusal::WrongDestination);
    }
    Ok(())
}

// "then 6, 7, 8, 9", of a tiered spec whose lengths and marks are right.
#[tactic(auto, unfolding(rules::specs::Lent::l0_used, rules::specs::Lent::runs_used))]
fn check_tiered(trees: &Trees, spec: &Spec) -> Result<(), Refusal>
    requires tables { (trees.now.count ≤ 32) × (length trees.now.rows.now ≡ 96) × (length trees.now.l0_ids.now ≡ 2048) × (length trees.now.run_ids.now ≡ 512) × Agree spec.now.sources }
    requires row_counts { (l0_used (trees_in trees.now) ≤ 512) × (runs_used (trees_in trees.now) ≤ 512) }
    ensures { refused result ≡ tiered_refusal (map id_of (sources_in spec.now.sources)) spec.now.destination (tree_with spec.now.prefix (trees_of (trees_in trees.now))) }
{
    match trees.find(spec.prefix) {
        None => Err(Refusal::UnknownPrefix),
        Some(i) => {
            let part = trees.part(i);
            let end = part.first_row + part.rows;
            let end_run = part.first_run + part.runs;
            let order = LogicalOrder {
                rows: part.rows,
                l0_ids: &trees.l0_ids[4 * part.first_row..4 * end],
                run_ids: &trees.run_ids[part.first_run..end_run],
            };
            check_sources(&order, spec)
        }
    }
}

// "Validation: drain accepted at once, then 6, 7, 8, 9." The trees are the lent table.
pub fn validate(trees: &Trees, spec: &Spec) -> Result<(), Refusal>
    ensures { validate_answer result ≡ validate_call (trees_in trees.now) (spec_in spec.now) }
{
    trees.check()?;
    if spec.drain > Kind::Drain as u8 {
        return Err(Refusal::Misshapen);
    }
    if !spec.sources.are_good() {
        return Err(Refusal::Misshapen);
    }
    if spec.drain == Kind::Drain as u8 {
        return Ok(());
    }
    check_tiered(trees, spec)
}
