// Fields of an image: a number of any width from 1 to 32 bits at any bit position of a byte slice, most significant bit
// first. It knows bytes and bits alone: nothing of tables, of places or of refusals.
#![tactic(auto)]

ghost use Rattle.std.specs.Prelude.{◌≡◌, ◌+◌, ◌-◌, ◌*◌, ◌/◌, ◌%◌, ◌^◌, ◌<◌, ◌≤◌, min, length, get_or};
ghost use Rattle.bits.specs.Bits.{widest, value_at, is_inside, field_at};

// Why no number stands in a field.
#[derive(Clone, Copy, Debug, PartialEq, Eq)]
pub enum NoField {
    // The image ends inside the field, or before it.
    Ends,
    // There is no field of such a width.
    NoWidth,
}

// The widest field, in bits.
pub const WIDEST: usize = 32;

// Whatever the bit of a byte that it starts at, a field lies in five bytes, and one of at most 25 bits in four.
const SPAN: usize = 5;

const NARROW: usize = 25;

const FIVE_BYTES: usize = 40;

const FOUR_BYTES: usize = 32;

// Whether a field of any width lies in the image whole. No sum here can wrap, whatever the position and the width.
#[tactic(auto, using(std::proofs::lemmas::Bool::Decides::nat_tests))]
pub fn inside(image: &[u8], at: usize, width: usize) -> bool
    ensures { result ≡ is_inside image.now at width }
{
    at / 8 + width / 8 + (at % 8 + width % 8 + 7) / 8 <= image.len()
}

// An image and a place in it. The functions over it are few and thin: each takes the reader apart, and leaves the work to
// a function over the image and the place. They are no methods: `new`, `moved` and `next` are promised by these names.
#[derive(Clone, Copy)]
pub struct Reader<'a> {
    pub image: &'a [u8],
    pub at: usize,
}

// A reader at the image's first bit.
pub fn new<'a>(image: &'a [u8]) -> Reader<'a>
    ensures { (result.image ≡ image.entry) × (result.at ≡ 0) }
{
    Reader { image, at: 0 }
}

// The reader at another place of its image.
pub fn moved<'a>(r: Reader<'a>, at: usize) -> Reader<'a>
    ensures { (result.image ≡ r.entry.image) × (result.at ≡ at) }
{
    Reader { image: r.image, at }
}

// The field of that width at the reader's place.
pub fn next<'a>(r: Reader<'a>, width: usize) -> Result<u32, NoField>
    ensures { result ≡ field_at r.entry.image.now r.entry.at width }
{
    field_at(r.image, r.at, width)
}

// The field of that width at that position, for any position and any width. A reader is made and asked here alone.
pub fn read(image: &[u8], at: usize, width: usize) -> Result<u32, NoField>
    ensures { result ≡ field_at image.now at width }
{
    next(moved(new(image), at), width)
}

// The number in a field of at most 32 bits; of a wider one, that in its first 32. A bit past the end of the image is 0,
// which a caller that asks `inside` first never sees.
pub fn value(image: &[u8], at: usize, width: usize) -> u32
    ensures { result ≡ value_at image.now at (min width widest) }
{
    let width = width.min(WIDEST);
    // the reader's own test, asked here too: so that of its way only the quick part is laid into every caller
    if at / 8 + SPAN <= image.len() {
        if let Ok(v) = read(image, at, width) {
            return v;
        }
    }
    value_at(image, at, width)
}

// Where five bytes are there the field is whole: one test serves both.
#[tactic(auto, using(std::proofs::lemmas::Bool::Decides::nat_tests), unfolding(crate::specs::Bits::field_at))]
fn field_at(image: &[u8], at: usize, width: usize) -> Result<u32, NoField>
    ensures { result ≡ field_at image.now at width }
{
    if width == 0 || WIDEST < width {
        return Err(NoField::NoWidth);
    }
    let first = at / 8;
    if first + SPAN <= image.len() {
        return Ok(value_in(image, first, at % 8, width));
    }
    if inside(image, at, width) {
        Ok(value_at(image, at, width))
    } else {
        Err(NoField::Ends)
    }
}

// The number in a field that starts `from` bits behind the start of byte `first`.
fn value_in(image: &[u8], first: usize, from: usize, width: usize) -> u32
    requires first_in_bounds { first + 5 ≤ length image.now }
    requires from_bound { from < 8 }
    requires width_le_widest { width ≤ widest }
    ensures { result ≡ value_at image.now (8 * first + from) width }
{
    // in 32 bits, so that the compiler makes one load of four bytes in a row
    let four = u64::from(u32::from_be_bytes([
        image[first],
        image[first + 1],
        image[first + 2],
        image[first + 3],
    ]));
    if width <= NARROW {
        cut(four, FOUR_BYTES - from - width, width)
    } else {
        let five = four * 256 + u64::from(image[first + 4]);
        cut(five, FIVE_BYTES - from - width, width)
    }
}

// The same of any field, by as many bytes as it has bits in, those past the end of the image 0.
fn value_at(image: &[u8], at: usize, width: usize) -> u32
    ensures { result ≡ value_at image.now at (min width widest) }
{
    let first = at / 8;
    let width = width.min(WIDEST);
    let end = at % 8 + width;
    let bytes = (end + 7) / 8;
    let mut x: u64 = 0;
    for k in 0..bytes {
        x = x * 256 + byte(image, first + k);
    }
    cut(x, 8 * bytes - end, width)
}

// A byte, 0 past the end of the image.
fn byte(image: &[u8], i: usize) -> u64
    ensures { result ≡ get_or image.now i 0 }
{
    image.get(i).map_or(0, |b| u64::from(*b))
}

// The bits of that many that stand before the last `down`.
fn cut(x: u64, down: usize, width: usize) -> u32
    requires down_bound { down < 64 }
    requires width_le_widest { width ≤ widest }
    ensures { result ≡ x / 2 ^ down % 2 ^ width }
{
    ((x >> down) % (1 << width)) as u32
}
