// The runs of Route, Least and Refit, each under one budget: the plain search at a width, Least's widths, Refit's rounds.
#![tactic(auto)]

ghost use Rattle.std.specs.Prelude.{◌≡◌, [], ◌-◌, ◌≤◌};
ghost use Rattle.marks.specs.Marks.{marked_in};
ghost use Rattle.wires.specs.Wires.{tables_of};
ghost use Rattle.netlist.specs.Netlist.{width_of, nets};
ghost use Rattle.netsearch.specs.PlainSearch.{over_capacity, least_search};
ghost use Rattle.routing.specs.declared.Call.TheVariants.{Refit};
ghost use Rattle.routing.specs.Outcomes.{lent, moved_by};
ghost use Rattle.assignment.specs.Board.{board_with};
ghost use Rattle.rank.specs.Facts.{rising_nets};
ghost use Rattle.tracksearch.specs.Plan.{search_tables, moves_from, NetsFit};
ghost use Rattle.planner.specs.Planned.{PlanOf};
ghost use Rattle.runs.specs.Runs.{old_number, SearchedOn, plain_run, run_on, Ran};

use marks::TRACKS;
use netlist::Sheet;
use netsearch::Search;
use planner::{Chosen, Plan};
use routing::Call;
use tracksearch::{Ended, NO_TRACK, Problem};
use wires::{ENTRIES, NETS};

// What a run found: the width, the nets' home tracks in rising net number, the entries' track maps at that width, and how many nets have moved.
#[derive(Clone, Copy)]
pub struct Routed {
    pub width: usize,
    pub homes: [u8; NETS],
    pub maps: [u8; ENTRIES],
    pub moved: usize,
}

// What a run works on: an accepted sheet, the tables of all its nets, which serve every width, and the budget of trials.
#[derive(Clone, Copy)]
pub struct Job<'a> {
    pub sheet: Sheet<'a>,
    pub plan: &'a Plan,
    pub budget: u32,
    ghost ready: { PlanOf sheet.netlist.bytes.now (rising_nets sheet.netlist.bytes.now) plan.now },
}

// How many of the n nets the home tracks move.
fn count_moves(old: &[u8; NETS], homes: &[u8; NETS], n: usize) -> usize
    requires { n ≤ 64 }
    ensures { (result ≡ moves_from old.now homes.now n) × (result ≤ n) }
{
    let mut moved = 0usize;
    for k in 0..n { // moved counts the moves of the nets before k
        moved += tracksearch::move_of(old, k, homes[k]);
    }
    moved
}

impl<'a> Job<'a> {
    // One search of the plan's nets at the width w, whose track maps are `maps`, with the plan's marks held before: `old` has the home tracks that
    // the nets had, and `limit` is how many of them may move. `used` trials of the budget were made before.
    fn search_on(
        self,
        maps: &'a [u8; ENTRIES],
        w: usize,
        old: &'a [u8; NETS],
        limit: usize,
        used: u32,
    ) -> Ended<Routed>
        requires fits { NetsFit (tables_of self.plan.now.start self.plan.now.chan maps.now w) self.plan.now.count }
        requires within { used ≤ self.budget }
        ensures { let p = self.entry.plan.now in
            SearchedOn (search_tables (tables_of p.start p.chan maps.now w) p.dead old.now limit) p.count self.entry.budget (self.entry.budget - used) result }
    {
        let n = self.plan.count as usize;
        let marks = self.plan.dead;
        let problem = Problem {
            start: &self.plan.start,
            chan: &self.plan.chan,
            maps,
            width: w,
            count: n,
            old,
            limit,
            budget: self.budget,
        };
        match problem.search(marks, used) {
            Ended::Found(u, homes) => {
                let moved = count_moves(old, &homes, n);
                let routed = Routed {
                    width: w,
                    homes,
                    maps: *maps,
                    moved,
                };
                Ended::Found(u, routed)
            }
            Ended::Exhausted(u) => Ended::Exhausted(u),
            Ended::Spent => Ended::Spent,
        }
    }

    // Whether some channel carries more nets than it has whole tracks below the width w.
    fn is_overloaded(self, w: usize) -> bool
        requires { w ≤ 32 }
        ensures { let s = self.entry.sheet.netlist.bytes.now in
            result ≡ over_capacity (board_with s (marked_in self.entry.plan.now.dead)) w (nets s) }
    {
        let channels = self.sheet.netlist.chip().channel_count();
        planner::over_capacity(&self.plan.load, &self.plan.dead, channels, w)
    }

    // The search h at the width w, `used` trials after the start of the run.
    fn search_at(self, h: Search, w: usize, used: u32) -> Ended<Routed>
        requires within { used ≤ self.budget }
        requires le_w { (1 ≤ w) × (w ≤ 32) }
        ensures { let s = self.entry.sheet.netlist.bytes.now in let p = self.entry.plan.now in
            Ran s p self.entry.budget (self.entry.budget - used) (plain_run h s (marked_in p.dead) w) (λ hs. 0) result }
    {
        if self.is_overloaded(w) { // "The overload test compares a channel's nets with its whole tracks."
            return Ended::Exhausted(used);
        }
        let maps = planner::maps_at(self.sheet, self.plan, w);
        match h {
            Search::Plain => self.search_on(&maps, w, &[NO_TRACK; NETS], 0, used),
        }
    }

    // Route's run: the search at the sheet's width.
    fn route(self, h: Search) -> Ended<Routed>
        ensures { let s = self.entry.sheet.netlist.bytes.now in let p = self.entry.plan.now in
            Ran s p self.entry.budget self.entry.budget (plain_run h s (marked_in p.dead) (width_of s)) (λ hs. 0) result }
    {
        let w = self.sheet.netlist.trailer.width;
        self.search_at(h, w, 0)
    }

    // "Least sums the trials of widths 1, 2 and so on up to the one found, else to 32."
    fn least(self, h: Search) -> Ended<Routed>
        ensures { let s = self.entry.sheet.netlist.bytes.now in let p = self.entry.plan.now in
            Ran s p self.entry.budget self.entry.budget (least_search h (board_with s (marked_in p.dead)) (nets s)) (λ hs. 0) result }
    {
        let mut used = 0u32;
        for w in 1..TRACKS + 1 { // the widths before w found nothing, in `used` trials
            let r = self.search_at(h, w, used);
            let Ended::Exhausted(u) = r else {
                return r;
            };
            used = u;
        }
        Ended::Exhausted(used)
    }

    // Refit's run: "sums rounds d = 0, 1, 2 up to the number of placed nets … It stops at the first round with a ticket."
    fn refit(self, old: &[u8]) -> Ended<Routed>
        requires { old_number Refit self.sheet.netlist.bytes.now (marked_in self.plan.now.dead) old.now ≡ 0 }
        ensures { let s = self.entry.sheet.netlist.bytes.now in let p = self.entry.plan.now in
            Ran s p self.entry.budget self.entry.budget (run_on Refit s (marked_in p.dead) old.now) (moved_by Refit (lent s [] old.now 0 [])) result }
    {
        let w = self.sheet.netlist.trailer.width;
        if self.is_overloaded(w) { // "unless a channel is overloaded"
            return Ended::Exhausted(0);
        }
        let chosen = Chosen {
            sheet: self.sheet,
            order: &self.plan.order,
            count: self.plan.count as usize,
        };
        let before = chosen.old_homes(old);
        let had = before.homes;
        let placed = before.placed;
        let maps = planner::maps_at(self.sheet, self.plan, w);
        let mut used = 0u32;
        for d in 0..placed + 1 { // the rounds before d found nothing, in `used` trials
            let r = self.search_on(&maps, w, &had, d, used);
            let Ended::Exhausted(u) = r else {
                return r;
            };
            used = u;
        }
        Ended::Exhausted(used)
    }

    // The run of a call: its search or its rounds, under the whole budget. Refit's old ticket is one that no number refuses; the other calls look
    // at none.
    pub fn run(self, call: Call, old: &[u8]) -> Ended<Routed>
        requires { old_number call self.sheet.netlist.bytes.now (marked_in self.plan.now.dead) old.now ≡ 0 }
        ensures { let s = self.entry.sheet.netlist.bytes.now in let p = self.entry.plan.now in
            Ran s p self.entry.budget self.entry.budget (run_on call s (marked_in p.dead) old.now) (moved_by call (lent s [] old.now 0 [])) result }
    {
        match call {
            Call::Route(h) => self.route(h),
            Call::Least(h) => self.least(h),
            Call::Refit => self.refit(old),
        }
    }
}
