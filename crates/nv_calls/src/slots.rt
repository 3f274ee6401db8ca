//! The slots that a call locks.

ghost use Rattle.std.specs.Prelude.{◌≡◌, ℕ, ◌<◌, ◌≤◌, AllPairs, [], ◌∷◌, length, slice_index_or, take};
ghost use Rattle.nv_calls.specs.Locked.{with_slot};

use nv_base::Ino;

/// The most slots of a call: two directories, the inode that moves, and the one that it replaces.
const PLACES: usize = 4;

/// At most four inode numbers, rising and each once.
/// The slots that a call locks rise, each once, four at most.
#[derive(Clone, Copy, Debug)]
pub struct LockedSlots {
    inos: [Ino; PLACES],
    count: usize,
    // It has at most four inode numbers, rising and each once.
    ghost few: { count ≤ 4 },
    ghost rising: { AllPairs (λ a b. a < b) (take count inos) },
}

impl LockedSlots {
    ghost use Rattle.nv_calls.specs.SlotList.{slots_in, with_some};

    /// No inode slots.
    pub fn none() -> LockedSlots
        ensures { slots_in result ≡ [] }
    {
        LockedSlots {
            inos: [Ino::new(0); PLACES],
            count: 0,
        }
    }

    /// The slot of this number alone.
    pub fn one(ino: Ino) -> LockedSlots
        ensures { slots_in result ≡ ino ∷ [] }
    {
        LockedSlots {
            inos: [ino; PLACES],
            count: 1,
        }
    }

    /// The inode numbers, rising and each once.
    pub fn as_slice(&self) -> &[Ino]
        ensures slots { result.now ≡ slots_in self.now }
        ensures few { length result.now ≤ 4 }
        ensures rising { AllPairs (λ a b. a < b) result.now }
    {
        &self.inos[..self.count]
    }

    /// How many inode slots there are.
    pub fn len(&self) -> usize
        ensures { result ≡ length (slots_in self.now) }
    {
        self.count
    }

    /// The number at a place.
    pub fn at(&self, place: usize) -> Ino
        requires { place < length (slots_in self.now) }
        ensures { result ≡ slice_index_or (slots_in self.now) place 0 }
    {
        self.inos[place]
    }

    /// The slot of a number too, where there is one and it has a slot.
    pub fn with(self, inodes: u64, ino: Option<Ino>) -> LockedSlots
        requires { length (slots_in self) < 4 }
        ensures { slots_in result ≡ with_some inodes ino (slots_in self) }
    {
        match ino {
            Some(ino) => if ino.number() < inodes {
                self.with_slot(ino)
            } else {
                self
            },
            None => self,
        }
    }

    /// A slot more, in its place.
    fn with_slot(self, ino: Ino) -> LockedSlots
        requires { length (slots_in self) < 4 }
        ensures { slots_in result ≡ with_slot ino (slots_in self) }
    {
        let place = self.place_of(ino);
        if place < self.count {
            if self.inos[place] == ino {
                return self;
            }
            return self.with_new(place, ino);
        }
        self.with_new(place, ino)
    }

    /// A slot more that is new, at the place that is known to be its own.
    fn with_new(self, place: usize, ino: Ino) -> LockedSlots
        requires few { length (slots_in self) < 4 }
        requires within { place ≤ length (slots_in self) }
        requires before { (k : ℕ) → k < place → slice_index_or (slots_in self) k 0 < ino }
        requires there { place < length (slots_in self)
            → ino < slice_index_or (slots_in self) place 0 }
        ensures { slots_in result ≡ with_slot ino (slots_in self) }
    {
        let mut inos = self.inos;
        inos.copy_within(place..self.count, place + 1);
        inos[place] = ino;
        let count = self.count + 1;
        LockedSlots { inos, count }
    }

    /// How many numbers are lower.
    fn place_of(&self, ino: Ino) -> usize
        ensures within { result ≤ length (slots_in self.now) }
        ensures before { (k : ℕ) → k < result → slice_index_or (slots_in self.now) k 0 < ino }
        ensures there { result < length (slots_in self.now)
            → ino ≤ slice_index_or (slots_in self.now) result 0 }
    {
        for place in 0..self.count {
            if self.inos[place] >= ino {
                return place;
            }
        }
        self.count
    }
}
