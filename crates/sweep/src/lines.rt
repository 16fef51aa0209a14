// The cells of two lines, or of two pairs of lines at once, joined two by two in the map. The other argument runs through `live`.
ghost use Rattle.std.specs.Prelude.{◌≡◌, ◌+◌, ◌*◌, ◌<◌, ◌≤◌, length, IfSome, unwrap_or};
ghost use Rattle.equivalence.specs.Equivalence.{byte};
ghost use Rattle.translation.specs.InnerLines.{line_at};
ghost use Rattle.sweep.specs.InnerContexts.{JoinsAt, JoinsLine, JoinsBoth, JoinsCross, ContextsIn, LinesInside, Passed, PassedBoth};
ghost use Rattle.sweep.specs.InnerSweeps.{Yes, SweepingIn, SweptIn};

use crate::queue::Merging;
use crate::{LinePair, Pass};

impl<'a> Pass<'a> {
    // The cell at c of a line.
    fn cell(&self, base: usize, stride: usize, c: u8) -> u8
        requires { base + c * stride < length self.now.cells.now }
        ensures { result ≡ line_at self.now.cells.now base stride c }
    {
        self.cells[base + c as usize * stride]
    }

    // Whether the map joins the cells of two lines at element number i.
    fn joins_at(&self, map: &[u8; 64], lines: LinePair, i: usize) -> bool
        requires n_bound { self.now.n ≤ 64 }
        requires contexts { ContextsIn self.now }
        requires lines_inside { LinesInside self.now.n self.now.cells.now lines }
        requires i_lt_count { i < length self.now.live.now }
        ensures { Yes result (JoinsAt self.now.cells.now lines (byte self.now.live.now i) (byte map.now)) }
    {
        let c = self.live[i];
        let a = self.cell(lines.p, lines.stride, c);
        let b = self.cell(lines.q, lines.stride, c);
        map[a as usize] == map[b as usize]
    }

    // The first index from `start` on at which the cells of two lines are apart in the map.
    fn apart_from(&self, map: &[u8; 64], lines: LinePair, start: usize) -> Option<usize>
        requires n_bound { self.now.n ≤ 64 }
        requires contexts { ContextsIn self.now }
        requires lines_inside { LinesInside self.now.n self.now.cells.now lines }
        requires start_le_count { start ≤ length self.now.live.now }
        ensures passed { Passed self.now.cells.now self.now.live.now (length self.now.live.now) lines start (unwrap_or result (length self.now.live.now)) (byte map.now) }
        ensures in_line { IfSome result (λ j. j < length self.now.live.now) }
    {
        for i in start..self.live.len() {
            if !self.joins_at(map, lines, i) {
                return Some(i);
            }
        }
        None
    }

    // Joins the cells of two lines at element number i.
    fn step_at(&self, merging: &mut Merging, lines: LinePair, i: usize)
        requires sweeping { SweepingIn self.now merging.old }
        requires contexts { ContextsIn self.now }
        requires lines_inside { LinesInside self.now.n self.now.cells.now lines }
        requires i_lt_count { i < length self.now.live.now }
        ensures { SweptIn self.now (JoinsAt self.now.cells.now lines (byte self.now.live.now i)) merging.old merging.new }
    {
        let c = self.live[i];
        let a = self.cell(lines.p, lines.stride, c);
        let b = self.cell(lines.q, lines.stride, c);
        self.step(merging, a, b);
    }

    // One other argument: two lines.
    pub fn line(&self, merging: &mut Merging, lines: LinePair)
        requires sweeping { SweepingIn self.now merging.old }
        requires contexts { ContextsIn self.now }
        requires lines_inside { LinesInside self.now.n self.now.cells.now lines }
        ensures { SweptIn self.now (JoinsLine self.now.cells.now self.now.live.now (length self.now.live.now) lines) merging.old merging.new }
    {
        let mut i = 0;
        // A `while`: the index jumps to what apart_from finds.
        while let Some(j) = self.apart_from(&merging.map, lines, i) {
            self.step_at(merging, lines, j);
            if self.halted(merging) {
                return;
            }
            i = j + 1;
        }
    }

    // Whether the map joins the cells of both pairs of lines at element number i.
    fn joins_both(&self, map: &[u8; 64], last: LinePair, first: LinePair, i: usize) -> bool
        requires n_bound { self.now.n ≤ 64 }
        requires contexts { ContextsIn self.now }
        requires lines_inside { LinesInside self.now.n self.now.cells.now last }
        requires lines_inside_2 { LinesInside self.now.n self.now.cells.now first }
        requires i_lt_count { i < length self.now.live.now }
        ensures { Yes result (JoinsBoth self.now.cells.now last first (byte self.now.live.now i) (byte map.now)) }
    {
        if !self.joins_at(map, last, i) {
            return false;
        }
        self.joins_at(map, first, i)
    }

    // The first index from `start` on at which the cells of one of the pairs of lines are apart in the map.
    fn apart_on_one(
        &self,
        map: &[u8; 64],
        last: LinePair,
        first: LinePair,
        start: usize,
    ) -> Option<usize>
        requires n_bound { self.now.n ≤ 64 }
        requires contexts { ContextsIn self.now }
        requires lines_inside { LinesInside self.now.n self.now.cells.now last }
        requires lines_inside_2 { LinesInside self.now.n self.now.cells.now first }
        requires start_le_count { start ≤ length self.now.live.now }
        ensures passed { PassedBoth self.now.cells.now self.now.live.now (length self.now.live.now) last first start (unwrap_or result (length self.now.live.now)) (byte map.now) }
        ensures in_line { IfSome result (λ j. j < length self.now.live.now) }
    {
        for i in start..self.live.len() {
            if !self.joins_both(map, last, first, i) {
                return Some(i);
            }
        }
        None
    }

    // Joins the cells of both pairs of lines at element number i.
    fn step_both(&self, merging: &mut Merging, last: LinePair, first: LinePair, i: usize)
        requires sweeping { SweepingIn self.now merging.old }
        requires contexts { ContextsIn self.now }
        requires lines_inside { LinesInside self.now.n self.now.cells.now last }
        requires lines_inside_2 { LinesInside self.now.n self.now.cells.now first }
        requires i_lt_count { i < length self.now.live.now }
        ensures { SweptIn self.now (JoinsBoth self.now.cells.now last first (byte self.now.live.now i)) merging.old merging.new }
    {
        self.step_at(merging, last, i);
        if self.halted(merging) {
            return;
        }
        self.step_at(merging, first, i);
    }

    // One other argument, on two pairs of lines: each element is looked at on both before the next, so that a loop and an end serve for two.
    pub fn cross(&self, merging: &mut Merging, last: LinePair, first: LinePair)
        requires sweeping { SweepingIn self.now merging.old }
        requires contexts { ContextsIn self.now }
        requires lines_inside { LinesInside self.now.n self.now.cells.now last }
        requires lines_inside_2 { LinesInside self.now.n self.now.cells.now first }
        ensures { SweptIn self.now (JoinsCross self.now.cells.now self.now.live.now (length self.now.live.now) last first) merging.old merging.new }
    {
        let mut i = 0;
        // A `while`: the index jumps to what apart_on_one finds.
        while let Some(j) = self.apart_on_one(&merging.map, last, first, i) {
            self.step_both(merging, last, first, j);
            if self.halted(merging) {
                return;
            }
            i = j + 1;
        }
    }
}
