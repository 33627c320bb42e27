//! The moves of a rule: of its spine, of the second path of a cycle, and of its arms.

ghost use Rattle.std.specs.Prelude.{◌≡◌, ◌↔◌, ◌+◌, ◌<◌, ◌≤◌, ◌*◌, ℕ, Bool, true, ◌&&◌, ◌||◌, nat_lt, [], length, IsNone, IfSome, filter, not};
ghost use Rattle.candidates.specs.Picked.{picked};
ghost use Rattle.sel_graph.specs.declared.states.Move.{Move};
ghost use Rattle.bit_rows.specs.Sets.{has, numbers_from};
ghost use Rattle.sel_algebra.specs.Table.{types_most};
ghost use Rattle.sel_graph.specs.Moves.{IsReach, moves_most, second_most};
ghost use Rattle.sel_graph.specs.Tests.{is_move};
ghost use Rattle.sel_graph.specs.Numbers.{move_of, moves_of};
ghost use Rattle.walk_pick.specs.LiveRows.{live_step};
ghost use Rattle.walk_pick.specs.Candidates.{live_moves, keeps_goal, move_candidates, keeps_end, link_candidates, arm_candidates};

use bit_rows::BitRow;
use seeded_draw::pick;
use sel_graph::{Goal, Move, Reach, State};

/// A test on the moves from a type of a schema.
trait MoveTest {
    /// How many types there are.
    ghost types: { Self → ℕ };
    /// Whether a move passes.
    ghost passes: { Self → Move → Bool };

    /// How many types there are.
    fn types(&self) -> u8
        ensures count { result ≡ types self.now }
        ensures few { result ≤ types_most };

    /// The places of the plain moves from the type: those of all moves that pass are among them.
    fn plain(&self) -> &BitRow<10>
        ensures within { (p : ℕ) → has result.now p ≡ true → p < 5 * types self.now }
        ensures all { (star : Bool) (p : ℕ) → passes self.now (move_of star p) ≡ true → has result.now p ≡ true };

    /// Whether a move passes.
    fn passes(&self, m: Move) -> bool
        requires { m.to < types self.now }
        ensures { result ≡ passes self.now m };
}

/// The places of the moves of one kind that pass a test.
fn live_row<T: MoveTest>(test: &T, star: bool) -> BitRow<10>
    ensures few { T.types test.now ≤ types_most }
    ensures marks { (p : ℕ) → has result p ≡ (nat_lt p (5 * T.types test.now) && T.passes test.now (move_of star p)) }
{
    let _ = test.types();
    let mut live = BitRow::empty();
    for place in test.plain().numbers() {
        add_live(&mut live, test, star, place);
    }
    live
}

/// Adds a place to a row, if its move of one kind passes a test.
fn add_live<T: MoveTest>(live: &mut BitRow<10>, test: &T, star: bool, place: u32)
    requires few { T.types test.now ≤ types_most }
    requires place { place < 5 * T.types test.now }
    ensures { (p : ℕ) → has live.new p ≡ (has live.old p || live_step (T.passes test.now) star p place) }
{
    if test.passes(Move::of_place(star, place)) {
        live.set(place);
    }
}

/// The number of a row that a word picks.
fn pick_number(row: &BitRow<10>, w: u64) -> Option<u32>
    ensures value { result ≡ picked w (numbers_from row.now 0 320) }
    ensures here { IfSome result (λ p. has row.now p ≡ true) }
{
    let count = row.numbers().count();
    if count == 0 {
        return None;
    }
    row.numbers().nth(pick(w, count as u64) as usize)
}

/// A move of one kind that passes a test.
fn pick_kind<T: MoveTest>(test: &T, star: bool, w: u64) -> Option<Move>
    ensures value { result ≡ picked w (filter (T.passes test.now) (moves_of (T.types test.now) star)) }
    ensures live { IfSome result (λ m. (m.to < T.types test.now) × (T.passes test.now m ≡ true)) }
{
    let live = live_row(test, star);
    match pick_number(&live, w) {
        Some(place) => Some(Move::of_place(star, place)),
        None => None,
    }
}

/// A move of one kind that passes a test, or where there is none, one of the other kind.
#[tactic(auto, using(candidates::proofs::PickLemmas::picked_others, candidates::proofs::PickLemmas::picked_is_none))]
fn pick_moves<T: MoveTest>(test: &T, star: bool, w: u64) -> Option<Move>
    ensures value { result ≡ picked w (live_moves (T.passes test.now) (T.types test.now) star) }
    ensures none { IsNone result ↔ (live_moves (T.passes test.now) (T.types test.now) star ≡ []) }
    ensures live { IfSome result (λ m. (m.to < T.types test.now) × (T.passes test.now m ≡ true)) }
{
    match pick_kind(test, star, w) {
        Some(m) => Some(m),
        None => pick_kind(test, !star, w),
    }
}

/// The moves from a state after which so many further moves can meet a goal.
#[derive(Drop)]
struct GoalMoves<'a> {
    reach: &'a Reach,
    types: u8,
    at: State,
    left: u8,
    goal: Goal,
    ghost all: { types ≡ length reach.now.schema.kinds },
    ghost known: { IsReach reach.now },
    ghost start: { at.start < length reach.now.schema.kinds },
    ghost here: { at.at < length reach.now.schema.kinds },
    ghost few: { left ≤ moves_most },
    ghost second: { goal.second ≤ second_most },
}

impl<'a> MoveTest for GoalMoves<'a> {
    ghost types = { λ t. length t.reach.now.schema.kinds };

    ghost passes = { λ t m. keeps_goal t.reach.now t.at t.left t.goal m };

    fn types(&self) -> u8 {
        self.types
    }

    fn plain(&self) -> &BitRow<10> {
        self.reach.plain_moves(self.at.at)
    }

    fn passes(&self, m: Move) -> bool {
        self.reach.is_move(self.at.at, m)
            && self
                .reach
                .feasible(self.reach.moved(self.at, m), self.left, self.goal)
    }
}

/// The moves from a type after which so many further moves can come to a type.
#[derive(Drop)]
struct LinkMoves<'a> {
    reach: &'a Reach,
    types: u8,
    at: u8,
    left: u8,
    end: u8,
    ghost all: { types ≡ length reach.now.schema.kinds },
    ghost known: { IsReach reach.now },
    ghost here: { at < length reach.now.schema.kinds },
    ghost few: { left ≤ moves_most },
    ghost there: { end < length reach.now.schema.kinds },
}

impl<'a> MoveTest for LinkMoves<'a> {
    ghost types = { λ t. length t.reach.now.schema.kinds };

    ghost passes = { λ t m. keeps_end t.reach.now t.at t.left t.end m };

    fn types(&self) -> u8 {
        self.types
    }

    fn plain(&self) -> &BitRow<10> {
        self.reach.plain_moves(self.at)
    }

    fn passes(&self, m: Move) -> bool {
        self.reach.is_move(self.at, m) && self.reach.joins(m.to, self.end, self.left)
    }
}

/// The moves from a type.
#[derive(Drop)]
struct ArmMoves<'a> {
    reach: &'a Reach,
    types: u8,
    at: u8,
    ghost all: { types ≡ length reach.now.schema.kinds },
    ghost known: { IsReach reach.now },
    ghost here: { at < length reach.now.schema.kinds },
}

impl<'a> MoveTest for ArmMoves<'a> {
    ghost types = { λ t. length t.reach.now.schema.kinds };

    ghost passes = { λ t m. is_move t.reach.now t.at m };

    fn types(&self) -> u8 {
        self.types
    }

    fn plain(&self) -> &BitRow<10> {
        self.reach.plain_moves(self.at)
    }

    fn passes(&self, m: Move) -> bool {
        self.reach.is_move(self.at, m)
    }
}

/// The next move of a spine: one from a state after which exactly `left` further moves can meet a goal.
///
/// It is one of the wanted kind, starred or plain, and where there is none, one of the other kind. `None` comes exactly
/// where there is none of either. With this move the moves are at most [`MOVES_MOST`](sel_graph::MOVES_MOST), and those of
/// the second path at most [`SECOND_MOST`](sel_graph::SECOND_MOST).
pub fn pick_move(reach: &Reach, at: State, left: u8, goal: Goal, star: bool, w: u64) -> Option<Move>
    requires start { at.start < length reach.now.schema.kinds }
    requires here { at.at < length reach.now.schema.kinds }
    requires few { left + 1 ≤ moves_most }
    requires second { goal.second ≤ second_most }
    ensures value { result ≡ picked w (move_candidates reach.now at left goal star) }
    ensures none { IsNone result ↔ (move_candidates reach.now at left goal star ≡ []) }
    ensures live { IfSome result (λ m. (m.to < length reach.now.schema.kinds) × (keeps_goal reach.now at left goal m ≡ true)) }
{
    let moves = GoalMoves {
        reach,
        types: reach.type_count(),
        at,
        left,
        goal,
    };
    pick_moves(&moves, star, w)
}

/// The next move of a second path: one from a type after which exactly `left` further moves can come to type `end`.
///
/// It is one of the wanted kind, starred or plain, and where there is none, one of the other kind. `None` comes exactly
/// where there is none of either. With this move the moves are at most [`MOVES_MOST`](sel_graph::MOVES_MOST).
pub fn pick_link(reach: &Reach, at: u8, left: u8, end: u8, star: bool, w: u64) -> Option<Move>
    requires here { at < length reach.now.schema.kinds }
    requires few { left + 1 ≤ moves_most }
    requires there { end < length reach.now.schema.kinds }
    ensures value { result ≡ picked w (link_candidates reach.now at left end star) }
    ensures none { IsNone result ↔ (link_candidates reach.now at left end star ≡ []) }
    ensures live { IfSome result (λ m. (m.to < length reach.now.schema.kinds) × (keeps_end reach.now at left end m ≡ true)) }
{
    let moves = LinkMoves {
        reach,
        types: reach.type_count(),
        at,
        left,
        end,
    };
    pick_moves(&moves, star, w)
}

/// The move of an arm: any from a type.
///
/// It is one of the wanted kind, starred or plain, and where there is none, one of the other kind. `None` comes exactly
/// where there is none of either.
pub fn pick_arm(reach: &Reach, at: u8, star: bool, w: u64) -> Option<Move>
    requires here { at < length reach.now.schema.kinds }
    ensures value { result ≡ picked w (arm_candidates reach.now at star) }
    ensures none { IsNone result ↔ (arm_candidates reach.now at star ≡ []) }
    ensures live { IfSome result (λ m. (m.to < length reach.now.schema.kinds) × (is_move reach.now at m ≡ true)) }
{
    let moves = ArmMoves {
        reach,
        types: reach.type_count(),
        at,
    };
    pick_moves(&moves, star, w)
}
