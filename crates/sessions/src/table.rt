// A queue for each axle, that of axle 1 first.
ghost use Rattle.std.specs.Prelude.{◌≡◌, suc, ◌<◌, IfSome, length};
ghost use Rattle.sessions.specs.Book.{Book, empty, fullest};
ghost use Rattle.sessions.specs.Keeps.{Sound, table_of, Keeps, queue_at};
ghost use Rattle.sessions.specs.Places.{Leaves};

use crate::queue::Queue;

#[repr(C)]
#[derive(Clone, Copy)]
pub struct Table {
    pub queues: [Queue; 6],
}

// A session by its queue and its place there.
#[derive(Clone, Copy)]
pub(crate) struct Spot {
    pub queue: usize,
    pub place: usize,
}

impl Table {
    pub(crate) fn blank() -> Table
        ensures { result ≡ table_of empty }
    {
        Table {
            queues: [Queue::blank(); 6],
        }
    }

    // The queue at `own`.
    // Kept: places as literals, since an index of a variable copies the whole table to the stack, over AXLE_STACK_TABLE_LOOK_UP and _HELD.
    #[inline(always)]
    pub(crate) fn queue(&self, own: usize) -> Queue
        requires { own < 6 }
        ensures { result ≡ queue_at self.now (suc own) }
    {
        match own {
            0 => self.queues[0],
            1 => self.queues[1],
            2 => self.queues[2],
            3 => self.queues[3],
            4 => self.queues[4],
            _ => self.queues[5],
        }
    }

    // How many sessions there are, all together.
    fn total(&self) -> usize
        ensures { (b : Book) → self.now ≡ table_of b → Sound b → result ≡ length b }
    {
        let mut total = 0;
        for queue in &self.queues {
            total += queue.sessions().len();
        }
        total
    }

    // The place of the queue that holds most, the first at a tie.
    fn fullest(&self) -> usize
        ensures { (result < 6) × ((b : Book) → self.now ≡ table_of b → suc result ≡ fullest b) }
    {
        let mut most = 0;
        for own in 1..6 {
            if self.queues[most].held < self.queues[own].held {
                most = own;
            }
        }
        most
    }

    // Which session goes, if one does, when one of that identifier comes to the queue at `own`. The cases are document 01's, in
    // its order.
    pub(crate) fn victim(&self, own: usize, identifier: &[u8]) -> Option<Spot>
        requires { own < 6 }
        ensures within { IfSome result (λ spot. spot.queue < 6) }
        ensures leaves { (b : Book) → Keeps self.now b → Leaves own identifier.now b result }
    {
        let queue = &self.queues[own];
        if let Some(place) = queue.find(identifier) {
            return Some(Spot { queue: own, place });
        }
        let oldest = 0;
        let n = queue.sessions().len();
        let from = if n == 8 {
            own
        } else if self.total() < 32 {
            return None;
        } else if 4 <= n {
            own
        } else {
            self.fullest()
        };
        Some(Spot {
            queue: from,
            place: oldest,
        })
    }
}
