//! The clients to whom the server speaks at once. Whether one is told depends on what he is. They stand apart from the server,
//! since it speaks to them as they will be, before anything is changed.

ghost use Rattle.std.specs.Prelude.{false, filter, IfOk, if◌then◌else◌, map, ℕ, ◌≡◌, ◌≤◌};
ghost use Rattle.sim_server.specs.Common.{Ask, Notice, asked, nobody, post_list, posted_to, release, to_all, up_to, waits_for};
ghost use Rattle.sim_server.specs.{Saying.Pushes, Saying.Says, Standing.cut_said, Standing.status_in};

use crate::posts::{Post, Posts, copied};
use crate::seats::{is_inside, least_in_of, status_of, waits};
use sim_base::{Global, Items, OutOfMemory};
use sim_plain::Status;
use sim_wire::Down;

/// The clients up to this number, by what each of them is. What is said to them takes memory of the allocator.
#[derive(Clone, Copy)]
pub struct Audience<'a> {
    pub alloc: Global,
    pub seats: &'a [Status],
    pub clients: u8,
}

impl Audience<'_> {
    /// One message to each client that is in.
    pub fn tell_all(&self, down: &Down) -> Result<Posts, OutOfMemory>
        ensures { IfOk result (λ posts. posts ≡ post_list self.now.clients (to_all (status_in self.now.seats.now) down.now)) }
    {
        let mut posts = Items::new(self.alloc);
        for i in 0..self.clients {
            let to = i + 1;
            if is_inside(status_of(self.seats, to)) {
                posts.push(Post {
                    to,
                    down: copied(down)?,
                })?;
            }
        }
        Ok(posts)
    }

    /// The released turns to each client that is in, if they have risen.
    pub fn tell_release(&self, released: u32, risen: u32) -> Result<Posts, OutOfMemory>
        ensures { Says result (post_list self.now.clients (release (status_in self.now.seats.now) released risen)) (risen ≤ released) }
    {
        if released < risen {
            self.tell_all(&Down::Release { turn: risen })
        } else {
            Ok(Items::new(self.alloc))
        }
    }

    /// That the report of a client is another than the first, to each client that is in.
    #[tactic(auto, using(crate::proofs::Made::list_nobody))]
    pub fn tell_notice(&self, turn: u32, client: u8, is_other: bool) -> Result<Posts, OutOfMemory>
        ensures { Says result (post_list self.now.clients
            (if is_other then to_all (status_in self.now.seats.now) (Notice turn client) else nobody)) (is_other ≡ false) }
    {
        if is_other {
            self.tell_all(&Down::Notice { turn, client })
        } else {
            Ok(Items::new(self.alloc))
        }
    }

    /// What is said as a client goes that is out already.
    pub fn tell_cut(&self, released: u32, risen: u32, client: u8) -> Result<Posts, OutOfMemory>
        ensures { Says result (post_list self.now.clients (cut_said self.now.seats.now self.now.clients released risen client))
            ((risen ≤ released) × ((j : ℕ) → waits_for client (status_in self.now.seats.now j) ≡ false)) }
    {
        let donor = least_in_of(self.seats, self.clients);
        let mut posts = Items::new(self.alloc);
        for i in 0..self.clients {
            let to = i + 1;
            self.push_release(&mut posts, to, released, risen)?;
            self.push_asks(&mut posts, donor, client, to)?;
        }
        Ok(posts)
    }

    fn push_release(
        &self,
        posts: &mut Posts,
        to: u8,
        released: u32,
        risen: u32,
    ) -> Result<(), OutOfMemory>
        ensures { Pushes result (posted_to to (release (status_in self.now.seats.now) released risen to)) (risen ≤ released) posts.old posts.new }
    {
        if released < risen && is_inside(status_of(self.seats, to)) {
            posts.push(Post {
                to,
                down: Down::Release { turn: risen },
            })?;
        }
        Ok(())
    }

    fn push_asks(
        &self,
        posts: &mut Posts,
        donor: Option<u8>,
        client: u8,
        to: u8,
    ) -> Result<(), OutOfMemory>
        ensures { Pushes result (posted_to to (asked donor (filter (λ j. waits_for client (status_in self.now.seats.now j)) (up_to self.now.clients))
            (λ j. waits_for client (status_in self.now.seats.now j)) to))
            ((j : ℕ) → waits_for client (status_in self.now.seats.now j) ≡ false) posts.old posts.new }
    {
        match donor {
            Some(other) => {
                if to == other {
                    self.push_each_ask(posts, client, to)?;
                }
            }
            None => {
                if waits(client, status_of(self.seats, to)) {
                    posts.push(Post {
                        to,
                        down: Down::Refused { code: 4 },
                    })?;
                }
            }
        }
        Ok(())
    }

    // One client is asked for each one that waits for another.
    fn push_each_ask(&self, posts: &mut Posts, client: u8, to: u8) -> Result<(), OutOfMemory>
        ensures { Pushes result (posted_to to (map Ask (filter (λ j. waits_for client (status_in self.now.seats.now j)) (up_to self.now.clients))))
            ((j : ℕ) → waits_for client (status_in self.now.seats.now j) ≡ false) posts.old posts.new }
    {
        for i in 0..self.clients {
            let waiting = i + 1;
            if waits(client, status_of(self.seats, waiting)) {
                posts.push(Post {
                    to,
                    down: Down::Ask { client: waiting },
                })?;
            }
        }
        Ok(())
    }
}
