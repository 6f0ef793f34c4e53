//! Blossoms, which are shrunk to their bases by union-find.

use crate::forest::Forest;
use crate::rows::{NONE, at, put};

impl Forest {
    // The base of the blossom in which a node lies; the ways that are gone get shorter by half.
    pub(crate) fn find(&mut self, node: u32) -> u32 {
        let mut node = node;
        for _ in 0..self.n {
            let up = at(self.base.as_slice(), node);
            if up == node {
                return node;
            }
            let over = at(self.base.as_slice(), up);
            put(self.base.as_mut_slice(), node, over);
            node = over;
        }
        node
    }

    // An edge between even nodes of one tree: what lies on the ways from both to where they meet
    // becomes one blossom.
    pub(crate) fn meet(&mut self, node: u32, other: u32, root: u32) {
        let here = self.find(node);
        let there = self.find(other);
        if here != there {
            let base = self.common_base(here, there);
            self.shrink(node, other, base, root);
            self.shrink(other, node, base, root);
        }
    }

    // The first base on both ways to the root, which are gone up in turn.
    fn common_base(&mut self, here: u32, there: u32) -> u32 {
        self.time = self.time.wrapping_add(1);
        let mut here = here;
        let mut there = there;
        for _ in 0..self.n.saturating_mul(2) {
            if here != NONE {
                if at(self.stamp.as_slice(), here) == self.time {
                    return here;
                }
                put(self.stamp.as_mut_slice(), here, self.time);
                let odd = self.mate_of(here);
                let above = self.link_of(odd);
                here = self.find(above);
            }
            (here, there) = (there, here);
        }
        here
    }

    // Shrinks the way from a node to a base. `behind` is where the way goes on round the blossom.
    fn shrink(&mut self, node: u32, behind: u32, base: u32, root: u32) {
        let mut node = node;
        let mut behind = behind;
        for _ in 0..self.n {
            let top = self.find(node);
            if top == base || top == NONE {
                return;
            }
            put(self.link.as_mut_slice(), node, behind);
            self.turn_links(node, top);
            let odd = self.mate_of(top);
            self.make_even(odd, root);
            put(self.base.as_mut_slice(), top, base);
            put(self.base.as_mut_slice(), odd, base);
            behind = odd;
            node = self.link_of(odd);
        }
    }

    // Turns the links on the way from a node round its blossom to the base.
    fn turn_links(&mut self, node: u32, base: u32) {
        let mut here = node;
        for _ in 0..self.n {
            if here == base {
                return;
            }
            let odd = self.mate_of(here);
            here = self.link_of(odd);
            put(self.link.as_mut_slice(), here, odd);
        }
    }
}
