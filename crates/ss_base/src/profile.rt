// The three profiles, and the numbers that each fixes.
ghost use Rattle.std.specs.Prelude.{◌≡◌};
ghost use Rattle.ss_base.specs.Profile.{numbers_of, AreSound};

/// How a store cuts and groups its streams; it is fixed when the store is made.
#[derive(Clone, Copy, Debug, PartialEq, Eq, PartialOrd, Ord, Hash)]
pub enum Profile {
    Tiny,
    Small,
    Large,
}

/// The numbers of a profile. All of them are this project's own choice.
#[derive(Clone, Copy, Debug, PartialEq, Eq, PartialOrd, Ord, Hash)]
pub struct Numbers {
    /// The lower threshold: no chunk but a stream's last has fewer bytes.
    pub tmin: u32,
    /// The upper threshold: no chunk has more bytes.
    pub tmax: u32,
    /// The main divisor.
    pub d: u32,
    /// The backup divisor, half of the main one.
    pub d2: u32,
    /// The least number of chunks of a segment that doesn't end its stream.
    pub smin: u32,
    /// The greatest number of chunks of a segment.
    pub smax: u32,
    /// The divisor that ends a segment.
    pub sdiv: u32,
    /// How many first bits of a hook are zero.
    pub bits: u32,
    /// The greatest size of a container to which a record may still be added, in bytes.
    pub room: u32,
}

impl Profile {
    /// The profile's numbers.
    pub fn numbers(self) -> Numbers
        ensures table { result ≡ numbers_of self }
        ensures sound { AreSound result }
    {
        match self {
            Profile::Tiny => TINY,
            Profile::Small => SMALL,
            Profile::Large => LARGE,
        }
    }
}

const TINY: Numbers = Numbers {
    tmin: 64,
    tmax: 256,
    d: 60,
    d2: 30,
    smin: 2,
    smax: 8,
    sdiv: 4,
    bits: 1,
    room: 4_096,
};

const SMALL: Numbers = Numbers {
    tmin: 460,
    tmax: 2_800,
    d: 540,
    d2: 270,
    smin: 64,
    smax: 1_024,
    sdiv: 256,
    bits: 4,
    room: 1_048_576,
};

const LARGE: Numbers = Numbers {
    tmin: 1_840,
    tmax: 11_200,
    d: 2_160,
    d2: 1_080,
    smin: 512,
    smax: 4_096,
    sdiv: 1_024,
    bits: 6,
    room: 4_194_304,
};
