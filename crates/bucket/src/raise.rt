// A count of a bucket comes to a larger value, or the bucket overflows.
ghost use Rattle.std.specs.Prelude.{◌≡◌, ◌≤◌, ◌<◌, ◌^◌, T, set};
ghost use Rattle.model.specs.Sound.{packed_word, upper_marks};
ghost use Rattle.model.specs.Calls.{holding};
ghost use Rattle.shapes.specs.Shapes.{rows_in};
ghost use Rattle.bucket.specs.Views.{as_bucket, own_of};
ghost use Rattle.bucket.specs.Raise.{Put, Raises, room_for};

use super::Bucket;
use shapes::Shape;

impl Bucket {
    // The part of a place in level 1, of this width: it may cross two words. Who judged the bucket shows what these ask.
    pub fn put(mut self, width: u64, place: u64, part: u64) -> Self
        requires { (place < 64) × (1 ≤ width) × (width ≤ 16) × (part < 2 ^ width) }
        ensures { Put self width place part result }
    {
        let s = width * place;
        let q = (s / 64) as usize;
        let off = s % 64;
        if off + width <= 64 {
            self.first[q] = packed::put_field(self.first[q], off, width, part);
            return self;
        }
        let have = 64 - off;
        self.first[q] = packed::put_field(self.first[q], off, have, part % packed::pow2(have));
        self.first[q + 1] = packed::put_field(self.first[q + 1], 0, width - have, part >> have);
        self
    }

    // Whether the levels have room for a place to come to the value.
    pub fn room(self, shape: Shape, place: u64, value: u64) -> bool
        requires { Raises shape self place value }
        ensures { result ≡ room_for shape self place value }
    {
        let high = value >> shape.width;
        if high == 0 {
            return true;
        }
        let marks = self.marks;
        let upper = self.upper;
        let levels = shape.levels();
        if packed::bit(marks, place) == 0 {
            return rooms::room_to_enter(marks, upper.packed, levels, high);
        }
        rooms::room_to_raise(upper.packed, levels, packed::rank(marks, place), high)
    }

    // The count at a place comes to the value, for which there is room.
    pub fn raise(mut self, shape: Shape, place: u64, value: u64) -> Self
        requires { Raises shape self place value × T (room_for shape self place value) }
        ensures { as_bucket shape result ≡ holding shape.width (rows_in shape) (set (own_of shape self) place value) }
    {
        let w = shape.width;
        self = self.put(w, place, value % packed::pow2(w));
        let high = value >> w;
        if high == 0 {
            return self;
        }
        let next = packed::rank(self.marks, place);
        if packed::bit(self.marks, place) == 0 {
            self.marks = packed::set_mark(self.marks, place);
            self.upper = self.upper.grow(shape, shape.uppers, 0, 0, next, high);
        } else {
            self.upper = self.upper.rise(shape, next, high);
        }
        self
    }

    // The levels and marks stay, the flag and the number go into the packed word. A wall has at most 4,096 numbers.
    pub fn overflow(mut self, number: u64) -> Self
        requires { number < 2 ^ 16 }
        ensures { (result.first ≡ self.first) × (result.marks ≡ self.marks) × (result.upper.words ≡ self.upper.words) × (result.upper.packed ≡ packed_word (upper_marks self.upper.packed) 1 number) }
    {
        let marks = self.upper.packed % packed::pow2(40);
        self.upper.packed = marks + packed::pow2(40) + number * packed::pow2(48);
        self
    }
}
