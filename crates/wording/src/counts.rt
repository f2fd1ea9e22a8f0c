// How many rows there are of each kind, of those that were read for wear or are to be repaired.
ghost use Rattle.std.specs.Prelude.{◌≡◌};
ghost use Rattle.wording.specs.Counts as spec;

// What was found of a row: that nothing is worn; one wrong bit, which the read repaired or a repair mended; wear that neither takes away; that it
// does not decode; or that it may not be used.
#[derive(Clone, Copy, Debug, PartialEq, Eq)]
pub enum Kind {
    Clean,
    Repaired,
    Worn,
    Damaged,
    NotPermitted,
}

#[derive(Clone, Copy, Debug, PartialEq, Eq, Default)]
pub struct Count {
    pub clean: u32,
    pub repaired: u32,
    pub worn: u32,
    pub damaged: u32,
    pub not_permitted: u32,
}

impl Count {
    // One row more.
    pub fn add(&mut self, kind: Kind)
        ensures { self.new ≡ spec.with_one self.old kind }
    {
        match kind {
            Kind::Clean => self.clean = self.clean.saturating_add(1),
            Kind::Repaired => self.repaired = self.repaired.saturating_add(1),
            Kind::Worn => self.worn = self.worn.saturating_add(1),
            Kind::Damaged => self.damaged = self.damaged.saturating_add(1),
            Kind::NotPermitted => self.not_permitted = self.not_permitted.saturating_add(1),
        }
    }

    // The rows that are not clean.
    pub fn not_clean(&self) -> u32
        ensures { result ≡ spec.not_clean self.now }
    {
        self.repaired
            .saturating_add(self.worn)
            .saturating_add(self.damaged)
            .saturating_add(self.not_permitted)
    }

    // All rows.
    pub fn all(&self) -> u32
        ensures { result ≡ spec.sum self.now.clean (spec.not_clean self.now) }
    {
        self.clean.saturating_add(self.not_clean())
    }
}
