// The upper levels of a shape, or those from one on: entries and widths are a byte for each, the lowest level lowest.
ghost use Rattle.std.specs.Prelude.{◌≡◌, ◌-◌, ◌/◌, ◌%◌, ◌≤◌, ◌<◌};

#[derive(Clone, Copy)]
pub struct Levels {
    pub count: u64,
    pub entries: u64,
    pub widths: u64,
}

impl Levels {
    // Of the lowest level.
    pub fn entries(self) -> u64
        ensures { (result ≡ self.entries % 256) × (result < 256) }
    {
        self.entries % 256
    }

    pub fn width(self) -> u64
        ensures { (result ≡ self.widths % 256) × (result < 256) }
    {
        self.widths % 256
    }

    // Those above the lowest. A walk over the levels shows what this asks.
    pub fn above(self) -> Self
        requires { 1 ≤ self.count }
        ensures { result ≡ record { count = self.count - 1; entries = self.entries / 256; widths = self.widths / 256 } }
    {
        Levels {
            count: self.count - 1,
            entries: self.entries >> 8,
            widths: self.widths >> 8,
        }
    }
}
