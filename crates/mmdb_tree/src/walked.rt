//! The walk of a whole tree.
ghost use Rattle.std.specs.Prelude.{◌≡◌, ℕ, ◌≤◌, ◌<◌, ◌+◌, ◌*◌, ◌^◌, [], vec_len, length, MatchBool, IfSome, IsTrue, false, not};
ghost use Rattle.std.specs.Vec.{vec_capacity};

use crate::nodes::Nodes;
use crate::record::TreeRecord;
use mmdb_offsets::OffsetSet;

/// A number of the tree, how many bits lead to it, and whether they are high: whether one of the first 96
/// bits of an IPv6 address is 1.
#[derive(Clone, Copy)]
pub struct Point {
    pub number: usize,
    pub prefix: u8,
    pub high: bool,
}

/// How a walk ended: it has stopped everywhere, or failed at a faulty leaf that leads to a number, or
/// since it has stopped too often.
#[derive(Clone, Copy)]
pub enum WalkEnd {
    Whole,
    AtFault(usize),
    TooMany,
}

/// How a walk ended, and how many positions it took.
#[derive(Clone, Copy)]
pub struct Walked {
    pub taken: usize,
    pub end: WalkEnd,
}

/// What a walk of a whole tree asks at each point, at hand: the nodes, how many bits a full address has, the node to
/// which aliases lead, if there are any, and how many bytes the data section has.
#[derive(Clone, Copy)]
pub struct Walker<'a> {
    pub nodes: Nodes<'a>,
    pub width: usize,
    pub ipv4_start: Option<usize>,
    pub data_len: usize,
    pub ghost few: { nodes.node_count < 2 ^ 32 },
    pub ghost narrow: { width ≤ 128 },
}

impl Walker<'_> {
    ghost use Rattle.mmdb_tree.specs.declared.walked.WalkEnd.TheVariants.{Whole};
    ghost use Rattle.mmdb_tree.specs.Stops.{is_fault, walk_cost_of};
    ghost use Rattle.mmdb_tree.specs.Walked.{walked_by, half_of, IsVerdict};
    ghost use Rattle.mmdb_tree.specs.Working.{Takes, GoesOn, IsStopped, end_from, is_alias_of, Keeps};
    ghost use Rattle.mmdb_offsets.specs.OffsetSet.{holds};

    // Whether a point is reached by an alias.
    #[inline(always)]
    fn is_alias(&self, point: Point) -> bool
        ensures { result ≡ is_alias_of (walked_by self.now) point.number point.high }
    {
        match self.ipv4_start {
            Some(start) => point.number == start && point.high,
            None => false,
        }
    }

    // Whether the walk goes on below a point.
    #[inline(always)]
    pub(crate) fn goes_on(&self, point: Point) -> bool
        ensures { MatchBool result (GoesOn (walked_by self.now) point)
            (IsStopped (walked_by self.now) point) }
    {
        usize::from(point.prefix) < self.width
            && point.number < self.nodes.node_count
            && !self.is_alias(point)
    }

    // The lower or the upper half of what lies below a point.
    #[inline(always)]
    pub(crate) fn half_of(&self, point: Point, right: bool) -> Point
        requires { GoesOn (walked_by self.now) point }
        ensures { result ≡ half_of (walked_by self.now) point right }
    {
        Point {
            number: self.nodes.half(point.number, right),
            prefix: point.prefix + 1,
            high: point.high || right && usize::from(point.prefix) + 32 < self.width,
        }
    }

    // Puts the offset of what the walk stops at into the set, if it has one. Whether it is no fault.
    #[tactic(auto, using(crate::proofs::Progress::adds_offset, crate::proofs::Progress::adds_node, crate::proofs::Progress::adds_empty, crate::proofs::Progress::adds_nothing, crate::proofs::Progress::node_fault, crate::proofs::Progress::found_inside))]
    #[inline(always)]
    fn keep(&self, point: Point, set: &mut OffsetSet) -> bool
        requires { length set.old ≡ self.now.data_len }
        ensures kept { result
            ≡ not (is_fault (end_from (walked_by self.now) point.number point.high)) }
        ensures set { Keeps (walked_by self.now) point set.old set.new }
        ensures length { length set.new ≡ length set.old }
    {
        match TreeRecord::of(point.number, self.nodes.node_count, self.data_len) {
            TreeRecord::Node(_) => self.is_alias(point),
            TreeRecord::Empty => true,
            TreeRecord::Data(offset) => {
                set.insert(offset);
                true
            }
            TreeRecord::Invalid => false,
        }
    }

    // Puts a point on the stack, where the walk goes on below it, and else keeps what it stops at. Whether that is
    // no fault.
    #[inline(always)]
    fn take(&self, point: Point, stack: &mut Vec<Point>, set: &mut OffsetSet) -> bool
        requires room { vec_len stack.old < vec_capacity stack.old }
        requires set { length set.old ≡ self.now.data_len }
        ensures taken { IsTrue result
            → Takes (walked_by self.now) point stack.old.items stack.new.items set.old set.new }
        ensures room { vec_capacity stack.new ≡ vec_capacity stack.old }
        ensures length { length set.new ≡ length set.old }
    {
        if self.goes_on(point) {
            stack.push_reserved(point);
            return true;
        }
        self.keep(point, set)
    }

    /// Walks the whole tree, from the root. `stack` keeps the upper halves that are still to come, and `set` the
    /// offsets that were found. It goes below no alias, and ends at the first faulty leaf, or after three stops for
    /// each node and one more.
    #[inline(never)]
    pub fn walk(&self, stack: &mut Vec<Point>, set: &mut OffsetSet) -> Walked
        requires empty { stack.old.items ≡ [] }
        requires room { self.now.width ≤ vec_capacity stack.old }
        requires set { length set.old ≡ self.now.data_len }
        requires none { (q : ℕ) → holds set.old q ≡ false }
        ensures verdict { IsVerdict (walked_by self.now) set.new result.taken result.end }
        ensures counted { result.taken ≡ walk_cost_of (walked_by self.now) }
        ensures bound { result.taken ≤ 6 * self.now.nodes.node_count + 130 }
        ensures length { length set.new ≡ length set.old }
    {
        let most = 3 * self.nodes.node_count;
        let mut point = Point {
            number: 0,
            prefix: 0,
            high: false,
        };
        let mut stops = 0usize;
        let mut taken = 0usize;
        loop {
            taken += 1;
            if self.goes_on(point) {
                stack.push_reserved(self.half_of(point, true));
                point = self.half_of(point, false);
                continue;
            }
            stops += 1;
            if !self.keep(point, set) {
                return Walked {
                    taken,
                    end: WalkEnd::AtFault(point.number),
                };
            }
            if stops > most {
                return Walked {
                    taken,
                    end: WalkEnd::TooMany,
                };
            }
            let Some(next) = stack.pop() else {
                return Walked {
                    taken,
                    end: WalkEnd::Whole,
                };
            };
            point = next;
        }
    }

    // This walker, with the size of its nodes' records as the caller names it.
    #[inline(always)]
    pub(crate) fn with_size(&self, record_size: u16) -> Walker<'_>
        requires { record_size ≡ self.now.nodes.record_size }
        ensures walks { walked_by result ≡ walked_by self.now }
        ensures nodes { result.nodes.node_count ≡ self.now.nodes.node_count }
        ensures width { result.width ≡ self.now.width }
        ensures data { result.data_len ≡ self.now.data_len }
    {
        Walker {
            nodes: self.nodes.with_size(record_size),
            width: self.width,
            ipv4_start: self.ipv4_start,
            data_len: self.data_len,
        }
    }

    // The sweep over nodes whose size of records is known where it is called.
    #[inline(always)]
    fn sweep_nodes(&self, stack: &mut Vec<Point>, set: &mut OffsetSet) -> Option<usize>
        requires empty { stack.old.items ≡ [] }
        requires room { self.now.width ≤ vec_capacity stack.old }
        requires set { length set.old ≡ self.now.data_len }
        requires none { (q : ℕ) → holds set.old q ≡ false }
        ensures whole { IfSome result
            (λ taken. IsVerdict (walked_by self.now) set.new taken Whole) }
        ensures counted { IfSome result (λ taken. taken ≡ walk_cost_of (walked_by self.now)) }
        ensures bound { IfSome result
            (λ taken. taken ≤ 6 * self.now.nodes.node_count) }
        ensures kept { vec_capacity stack.new ≡ vec_capacity stack.old }
    {
        let mut point = Point {
            number: 0,
            prefix: 0,
            high: false,
        };
        if !self.goes_on(point) {
            return None;
        }
        for nodes in 1..3 * self.nodes.node_count {
            let lower = self.half_of(point, false);
            if !self.take(self.half_of(point, true), stack, set) {
                return None;
            }
            if self.goes_on(lower) {
                point = lower;
                continue;
            }
            if !self.keep(lower, set) {
                return None;
            }
            let Some(next) = stack.pop() else {
                return Some(2 * nodes + 1);
            };
            point = next;
        }
        None
    }

    /// Walks the whole tree, a node at a time, and gives the positions that it took. Both halves of a node are looked
    /// at together, so the offsets come in another order than the leaves. None where the walk fails, or may fail:
    /// where it stops is then reported by `walk`. What it asks at each node is in registers where the stack and the set are
    /// the caller's own and go nowhere else.
    #[inline(always)]
    pub fn sweep(&self, stack: &mut Vec<Point>, set: &mut OffsetSet) -> Option<usize>
        requires empty { stack.old.items ≡ [] }
        requires room { self.now.width ≤ vec_capacity stack.old }
        requires set { length set.old ≡ self.now.data_len }
        requires none { (q : ℕ) → holds set.old q ≡ false }
        ensures whole { IfSome result
            (λ taken. IsVerdict (walked_by self.now) set.new taken Whole) }
        ensures counted { IfSome result (λ taken. taken ≡ walk_cost_of (walked_by self.now)) }
        ensures bound { IfSome result
            (λ taken. taken ≤ 6 * self.now.nodes.node_count) }
        ensures kept { vec_capacity stack.new ≡ vec_capacity stack.old }
    {
        match self.nodes.record_size {
            24 => self.with_size(24).sweep_nodes(stack, set),
            28 => self.with_size(28).sweep_nodes(stack, set),
            _ => self.with_size(32).sweep_nodes(stack, set),
        }
    }
}
