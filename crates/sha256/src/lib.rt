// The sum of some bytes by SHA-256, as FIPS 180-4 has it. It knows bytes and words alone, and holds one block's words at a time.
#![tactic(auto)]

ghost use Rattle.std.specs.Prelude.{◌≡◌, ◌^◌, ◌<◌, length, slice_index};
ghost use Rattle.sha256.specs.Message as message;
ghost use Rattle.sha256.specs.Sum as sums;

// The eight words of a hash value, and the working variables, which are as many.
#[derive(Clone, Copy)]
struct State {
    a: u32,
    b: u32,
    c: u32,
    d: u32,
    e: u32,
    f: u32,
    g: u32,
    h: u32,
}

// The initial hash value.
const INITIAL: State = State {
    a: 0x6a09_e667,
    b: 0xbb67_ae85,
    c: 0x3c6e_f372,
    d: 0xa54f_f53a,
    e: 0x510e_527f,
    f: 0x9b05_688c,
    g: 0x1f83_d9ab,
    h: 0x5be0_cd19,
};

// The bytes of a block.
const BLOCK: usize = 64;

// The words of its schedule, and the rounds.
const ROUNDS: usize = 64;

// The words of its schedule that are its own.
const OWN: usize = 16;

// The byte behind the message: a bit 1 and seven bits 0.
const MARK: u8 = 128;

// The bytes at the very end that say how many bits the message has.
const LENGTH: usize = 8;

// The sum of some bytes by FIPS 180-4's SHA-256, eight words, the first most significant.
#[tactic(auto, unfolding(crate::specs::Constants::H0, crate::specs::Sum::hash, crate::specs::Sum::compressed, crate::specs::Sum::sum_of))]
pub fn sum(bytes: &[u8]) -> [u32; 8]
    ensures { result ≡ sums.sum_of bytes.now }
{
    let blocks = padded_len(bytes) / BLOCK;
    let mut s = INITIAL;
    for i in 0..blocks {
        let w = schedule(bytes, i);
        s = s.rounds(&w).added(s);
    }
    [s.a, s.b, s.c, s.d, s.e, s.f, s.g, s.h]
}

impl State {
    // The working variables after a block, added to the hash value before it.
    #[tactic(auto, unfolding(crate::specs::Sum::added))]
    fn added(self, s: State) -> State
        ensures { result ≡ sums.added self s }
    {
        State {
            a: self.a.wrapping_add(s.a),
            b: self.b.wrapping_add(s.b),
            c: self.c.wrapping_add(s.c),
            d: self.d.wrapping_add(s.d),
            e: self.e.wrapping_add(s.e),
            f: self.f.wrapping_add(s.f),
            g: self.g.wrapping_add(s.g),
            h: self.h.wrapping_add(s.h),
        }
    }

    // All the rounds of a block, by its schedule.
    #[tactic(auto, unfolding(crate::specs::Sum::rounds))]
    fn rounds(self, w: &[u32; ROUNDS]) -> State
        ensures { result ≡ sums.rounds w.now 64 self }
    {
        let mut s = self;
        for (k, w) in K.iter().zip(w) {
            s = s.round(*k, *w);
        }
        s
    }

    // One round, by its constant and its word.
    fn round(self, k: u32, w: u32) -> State
        ensures { result ≡ sums.round self k w }
    {
        let State {
            a,
            b,
            c,
            d,
            e,
            f,
            g,
            h,
        } = self;
        let s1 = e.rotate_right(6) ^ e.rotate_right(11) ^ e.rotate_right(25);
        let ch = (e & f) ^ (!e & g);
        let t1 = h
            .wrapping_add(s1)
            .wrapping_add(ch)
            .wrapping_add(k)
            .wrapping_add(w);
        let s0 = a.rotate_right(2) ^ a.rotate_right(13) ^ a.rotate_right(22);
        let maj = (a & b) ^ (a & c) ^ (b & c);
        let t2 = s0.wrapping_add(maj);
        State {
            a: t1.wrapping_add(t2),
            b: a,
            c: b,
            d: c,
            e: d.wrapping_add(t1),
            f: e,
            g: f,
            h: g,
        }
    }
}

// The message schedule of block i. No padded message has 2 ^ 58 blocks: its bytes are fewer than 2 ^ 64.
fn schedule(bytes: &[u8], i: usize) -> [u32; ROUNDS]
    requires { i < 2 ^ 58 }
    ensures { result ≡ sums.schedule (message.padded bytes.now) i 64 }
{
    let mut w = [0u32; ROUNDS];
    for t in 0..ROUNDS {
        w[t] = next_word(bytes, i, &w, t);
    }
    w
}

// Word t of the schedule of block i, by the words before it.
fn next_word(bytes: &[u8], i: usize, w: &[u32; ROUNDS], t: usize) -> u32
    requires i_bound { i < 2 ^ 58 }
    requires t_bound { t < 64 }
    ensures { result ≡ sums.next_word (message.padded bytes.now) i w.now t }
{
    if t < OWN {
        return word(bytes, OWN * i + t);
    }
    let x = w[t - 2];
    let s1 = x.rotate_right(17) ^ x.rotate_right(19) ^ (x >> 10);
    let y = w[t - 15];
    let s0 = y.rotate_right(7) ^ y.rotate_right(18) ^ (y >> 3);
    s1.wrapping_add(w[t - 7])
        .wrapping_add(s0)
        .wrapping_add(w[t - 16])
}

// Word j of the padded message.
#[tactic(auto, unfolding(crate::specs::Message::word_of))]
fn word(bytes: &[u8], j: usize) -> u32
    requires { j < 2 ^ 62 }
    ensures { result ≡ message.word_of (message.padded bytes.now) j }
{
    let at = 4 * j;
    u32::from_be_bytes([
        byte(bytes, at),
        byte(bytes, at + 1),
        byte(bytes, at + 2),
        byte(bytes, at + 3),
    ])
}

// Byte i of the padded message, 0 past its end. The message is not copied to be padded.
fn byte(bytes: &[u8], i: usize) -> u8
    ensures { result ≡ slice_index (message.padded bytes.now) i }
{
    let n = bytes.len();
    if i < n {
        return bytes[i];
    }
    if i == n {
        return MARK;
    }
    let end = padded_len(bytes);
    if end <= i {
        return 0;
    }
    let behind = end - 1 - i;
    if LENGTH <= behind {
        return 0;
    }
    // the shift to the left drops what 64 bits do not hold
    ((n << 3 >> (8 * behind)) % 256) as u8
}

// The bytes of the padded message: whole blocks, and the fewest that hold the message, the mark and the length.
fn padded_len(bytes: &[u8]) -> usize
    ensures { result ≡ length (message.padded bytes.now) }
{
    (bytes.len() + LENGTH + BLOCK) / BLOCK * BLOCK
}

// A constant for each round.
const K: [u32; ROUNDS] = [
    0x428a_2f98,
    0x7137_4491,
    0xb5c0_fbcf,
    0xe9b5_dba5,
    0x3956_c25b,
    0x59f1_11f1,
    0x923f_82a4,
    0xab1c_5ed5,
    0xd807_aa98,
    0x1283_5b01,
    0x2431_85be,
    0x550c_7dc3,
    0x72be_5d74,
    0x80de_b1fe,
    0x9bdc_06a7,
    0xc19b_f174,
    0xe49b_69c1,
    0xefbe_4786,
    0x0fc1_9dc6,
    0x240c_a1cc,
    0x2de9_2c6f,
    0x4a74_84aa,
    0x5cb0_a9dc,
    0x76f9_88da,
    0x983e_5152,
    0xa831_c66d,
    0xb003_27c8,
    0xbf59_7fc7,
    0xc6e0_0bf3,
    0xd5a7_9147,
    0x06ca_6351,
    0x1429_2967,
    0x27b7_0a85,
    0x2e1b_2138,
    0x4d2c_6dfc,
    0x5338_0d13,
    0x650a_7354,
    0x766a_0abb,
    0x81c2_c92e,
    0x9272_2c85,
    0xa2bf_e8a1,
    0xa81a_664b,
    0xc24b_8b70,
    0xc76c_51a3,
    0xd192_e819,
    0xd699_0624,
    0xf40e_3585,
    0x106a_a070,
    0x19a4_c116,
    0x1e37_6c08,
    0x2748_774c,
    0x34b0_bcb5,
    0x391c_0cb3,
    0x4ed8_aa4a,
    0x5b9c_ca4f,
    0x682e_6ff3,
    0x748f_82ee,
    0x78a5_636f,
    0x84c8_7814,
    0x8cc7_0208,
    0x90be_fffa,
    0xa450_6ceb,
    0xbef9_a3f7,
    0xc671_78f2,
];
