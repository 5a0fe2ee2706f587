// The plain search (01 "Trials") on prepared tables: the hot path. It knows no bytes of a sheet.
#![tactic(auto)]

ghost use Rattle.std.specs.Prelude.{◌≡◌, ◌-◌, ◌≤◌, ◌<◌, [], take};
ghost use Rattle.backtracking.specs.Search.{backtrack};
ghost use Rattle.backtracking.specs.Budget.{under_budget};
ghost use Rattle.wires.specs.Wires.{tables_of};
ghost use Rattle.wires.specs.NetsOf.{nets_of};
ghost use Rattle.tracksearch.specs.Plan.{search_tables, move_from, plan_fits, NetsFit};

use marks::CHANNELS;
use wires::{ENTRIES, NETS, NetTables};

// The home track of a net that had none.
pub const NO_TRACK: u8 = 255;

// Where a search stands: the wires held, for each channel a mask of its tracks; the home tracks of the nets placed, in rising net
// number; how many those are; how many of them have moved.
#[derive(Clone, Copy)]
struct State {
    taken: [u32; CHANNELS],
    homes: [u8; NETS],
    placed: usize,
    moved: usize,
}

// How a search or a run of searches ended: what was found, or no track left for the first net, with the trials used; or the budget is
// spent.
#[derive(Clone, Copy)]
pub enum Ended<T> {
    Found(u32, T),
    Exhausted(u32),
    Spent,
}

// What a search works on: the tables of its nets at a width, without that of all track maps, which the search makes; how many nets these are;
// the home track that each had; how many of them may move; the budget of trials.
#[derive(Clone, Copy)]
pub struct Problem<'a> {
    pub start: &'a [u16; NETS + 1],
    pub chan: &'a [u16; ENTRIES],
    pub maps: &'a [u8; ENTRIES],
    pub width: usize,
    pub count: usize,
    pub old: &'a [u8; NETS],
    pub limit: usize,
    pub budget: u32,
    ghost fits: { NetsFit (tables_of start.now chan.now maps.now width) count },
}

// The same with the table of all track maps: what none of the search's steps changes.
#[derive(Clone, Copy)]
struct Prepared<'a> {
    nets: NetTables<'a>,
    count: usize,
    old: &'a [u8; NETS],
    limit: usize,
    budget: u32,
    ghost fits: { NetsFit (nets_of nets) count },
}

// 1 where the home track t moves net k, else 0.
#[tactic(auto, unfolding(crate::specs::Plan::move_from))]
pub fn move_of(old: &[u8; NETS], k: usize, t: u8) -> usize
    requires { k < 64 }
    ensures { (result ≡ move_from old.now k t) × (result ≤ 1) }
{
    let o = old[k];
    usize::from(o != NO_TRACK && o != t)
}

impl Prepared<'_> {
    ghost use Rattle.tracksearch.specs.State.{CanGoOn, GoesOn};

    // "After a fit the search goes on to the next net": the search from the state m on.
    #[cycle(next_net_next_track)]
    fn next_net(&self, m: State, used: u32) -> Ended<[u8; NETS]>
        requires { CanGoOn self.now used m }
        ensures { GoesOn self.now used m result }
    {
        if m.placed == self.count {
            return Ended::Found(used, m.homes);
        }
        self.next_track(m, used)
    }

    // "tries home tracks from 0 to W−1. Each attempt is one trial, whether it fits or not … with no track left it returns to the net
    // before": the search from the state m on, which does not have all of the nets. Net k is tried in m itself, which saves a copy for each
    // trial: it is counted as placed throughout, a track that fits has its wires laid, and they are taken back when the nets after it found
    // nothing. What m was entered with is kept beside it: `before` counts the moves of the nets before k, and `spent` the trials made, which
    // grow track by track.
    #[cycle(next_net_next_track)]
    fn next_track(&self, mut m: State, used: u32) -> Ended<[u8; NETS]>
        requires { CanGoOn self.now used m × (m.placed < self.now.count) }
        ensures { GoesOn self.now used m result }
    {
        // Read once here: read through self at each track, they cost some per cent of the speed.
        let Prepared {
            nets,
            old,
            limit,
            budget,
            ..
        } = *self;
        let k = m.placed;
        let before = m.moved;
        m.placed = k + 1;
        let mut spent = used;
        for t in 0..nets.width { // the tracks before t led nowhere, and m has no wires of net k
            if spent == budget {
                return Ended::Spent;
            }
            spent += 1;
            if nets.is_free(&m.taken, k, t) {
                let moved = before + move_of(old, k, t as u8);
                if moved <= limit {
                    nets.lay(&mut m.taken, k, t);
                    m.homes[k] = t as u8;
                    m.moved = moved;
                    let r = self.next_net(m, spent);
                    let Ended::Exhausted(u) = r else {
                        return r;
                    };
                    spent = u;
                    nets.unlay(&mut m.taken, k, t);
                }
            }
        }
        Ended::Exhausted(spent)
    }
}

impl Problem<'_> {
    ghost use Rattle.tracksearch.specs.State.{run_of, InBudget};

    // The whole search, which begins with the wires of `marks` held, where `used` trials of the budget were made before.
    pub fn search(&self, marks: [u32; CHANNELS], used: u32) -> Ended<[u8; NETS]>
        requires { used ≤ self.now.budget }
        ensures { let p = self.now in let nets = tables_of p.start.now p.chan.now p.maps.now p.width in
            InBudget p.budget result
            × (run_of (take p.count) p.budget result ≡ under_budget
            (backtrack p.width (plan_fits (search_tables nets marks p.old.now p.limit)) p.count [])
            (p.budget - used)) }
    {
        let tracks = wires::map_table(self.width);
        let nets = NetTables {
            start: self.start,
            chan: self.chan,
            maps: self.maps,
            tracks: &tracks,
            width: self.width,
        };
        let prepared = Prepared {
            nets,
            count: self.count,
            old: self.old,
            limit: self.limit,
            budget: self.budget,
        };
        let m = State {
            taken: marks,
            homes: [0u8; NETS],
            placed: 0,
            moved: 0,
        };
        prepared.next_net(m, used)
    }
}
