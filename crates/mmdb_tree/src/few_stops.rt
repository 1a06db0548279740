//! Whether a walk below some bits of a tree stops seldom enough.
ghost use Rattle.std.specs.Prelude.{◌≡◌, ◌<◌, ◌≤◌, ◌+◌, ◌-◌, ◌||◌, ◌&&◌, [], length, vec_len, nat_le, nat_lt, take};
ghost use Rattle.std.specs.Vec.{vec_capacity};
ghost use Rattle.mmdb_net.specs.Bits.{bits_of};
ghost use Rattle.mmdb_tree.specs.Stops.{stops_below};
ghost use Rattle.mmdb_tree.specs.Tree.{step as spec_step};
ghost use Rattle.mmdb_tree.specs.Walked.{walked_by};
ghost use Rattle.mmdb_tree.specs.Working.{IsPointAt, IsFewFrom, Puts};

use crate::walked::{Point, Walker};

impl Walker<'_> {
    // Where a bit leads from a number.
    #[tactic(auto, using(crate::proofs::WalkLemmas::stays_outside))]
    fn step(&self, number: usize, right: bool) -> usize
        ensures { result ≡ spec_step (walked_by self.now).tree number right }
    {
        if number < self.nodes.node_count {
            self.nodes.half(number, right)
        } else {
            number
        }
    }

    // Whether bits are high with one more, where this many come before it.
    fn is_high_with(&self, high: bool, right: bool, taken: usize) -> bool
        requires { taken < self.now.width }
        ensures { result ≡ (high || (right && nat_lt (taken + 32) self.now.width)) }
    {
        high || right && taken + 32 < self.width
    }

    // The point to which the first bits of an address lead.
    fn point_along(&self, address: u128, prefix: u8) -> Point
        requires { prefix ≤ self.now.width }
        ensures { IsPointAt (walked_by self.now)
            (take prefix (bits_of self.now.width address)) result }
    {
        let mut point = Point {
            number: 0,
            prefix: 0,
            high: false,
        };
        while point.prefix < prefix {
            let taken = usize::from(point.prefix);
            let right = (address >> (self.width - 1 - taken)) % 2 == 1;
            point = Point {
                number: self.step(point.number, right),
                prefix: point.prefix + 1,
                high: self.is_high_with(point.high, right, taken),
            };
        }
        point
    }

    // Puts a point on the stack, where the walk goes on below it.
    #[inline(always)]
    fn put(&self, point: Point, stack: &mut Vec<Point>)
        requires { vec_len stack.old < vec_capacity stack.old }
        ensures put { Puts (walked_by self.now) point stack.old.items stack.new.items }
        ensures room { vec_capacity stack.new ≡ vec_capacity stack.old }
    {
        if self.goes_on(point) {
            stack.push_reserved(point);
        }
    }

    // Whether a walk below a point stops at most so often: at each node it looks at both halves together.
    #[inline(always)]
    fn few_from(&self, start: Point, most: usize, stack: &mut Vec<Point>) -> bool
        requires within { start.prefix ≤ self.now.width }
        requires some { 0 < most }
        requires empty { stack.old.items ≡ [] }
        requires room { self.now.width ≤ vec_capacity stack.old }
        ensures { IsFewFrom (walked_by self.now) start most result }
    {
        if !self.goes_on(start) {
            return true;
        }
        let mut point = start;
        for nodes in 1..most {
            let lower = self.half_of(point, false);
            self.put(self.half_of(point, true), stack);
            if self.goes_on(lower) {
                point = lower;
                continue;
            }
            let Some(next) = stack.pop() else {
                return true;
            };
            point = next;
        }
        false
    }

    /// Whether a walk below the first `prefix` bits of an address stops, at leaves and aliases, at most `most` times.
    /// `stack` keeps the upper halves that are still to come. It takes as many steps at most.
    #[inline(never)]
    pub fn stops_at_most(
        &self,
        address: u128,
        prefix: u8,
        most: usize,
        stack: &mut Vec<Point>,
    ) -> bool
        requires within { prefix ≤ self.now.width }
        requires some { 0 < most }
        requires empty { stack.old.items ≡ [] }
        requires room { self.now.width ≤ vec_capacity stack.old }
        ensures { result ≡ nat_le (length (stops_below (walked_by self.now)
            (self.now.width - prefix) (take prefix (bits_of self.now.width address)))) most }
    {
        let start = self.point_along(address, prefix);
        match self.nodes.record_size {
            24 => self.with_size(24).few_from(start, most, stack),
            28 => self.with_size(28).few_from(start, most, stack),
            _ => self.with_size(32).few_from(start, most, stack),
        }
    }
}
