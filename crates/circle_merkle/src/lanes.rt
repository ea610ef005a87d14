//! SHA-256 (FIPS 180-4) of sixteen messages of one length at once, each in a lane of its own.
ghost use Rattle.std.specs.Prelude.{◌≡◌, ℕ, ◌+◌, ◌*◌, ◌<◌, ◌≤◌, List, length, map, flat_map};
ghost use Rattle.std.specs.Prelude.{All, slice_index, slice_index_or, []};
ghost use Rattle.sha2.specs.Sha256.{add_state as state_sum, add32, big_sigma0 as big_sigma0_of};
ghost use Rattle.sha2.specs.Sha256.{big_sigma1 as big_sigma1_of, ch as ch_of, compress as compressed};
ghost use Rattle.sha2.specs.Sha256.{digest_bytes, initial_hash_256, maj as maj_of, padded_message, round as round_of};
ghost use Rattle.sha2.specs.Sha256.{rounds as rounds_of, schedule as schedule_of, sha256};
ghost use Rattle.sha2.specs.Sha256.{small_sigma0 as small_sigma0_of, small_sigma1 as small_sigma1_of};
ghost use Rattle.sha2.specs.Sha256.{word_at as word_at_of};
ghost use Rattle.circle_merkle.specs.Lanes.{lane, variables, IsBlock, IsNextWord, final_value};

/// How many messages are hashed at once: four of their words are one operand of the processor, and
/// four such operands keep it from waiting for a result.
pub const LANES: usize = 16;

/// A digest of SHA-256.
pub type Hash = [u8; 32];

// One word of each message.
type Words = [u32; LANES];

// The first 32 bits of the fractional parts of the square roots of the first 8 primes.
const INITIAL: [u32; 8] = [
    0x6a09e667, 0xbb67ae85, 0x3c6ef372, 0xa54ff53a, 0x510e527f, 0x9b05688c, 0x1f83d9ab, 0x5be0cd19,
];

// The first 32 bits of the fractional parts of the cube roots of the first 64 primes.
const ROUND: [u32; 64] = [
    0x428a2f98, 0x71374491, 0xb5c0fbcf, 0xe9b5dba5, 0x3956c25b, 0x59f111f1, 0x923f82a4, 0xab1c5ed5,
    0xd807aa98, 0x12835b01, 0x243185be, 0x550c7dc3, 0x72be5d74, 0x80deb1fe, 0x9bdc06a7, 0xc19bf174,
    0xe49b69c1, 0xefbe4786, 0x0fc19dc6, 0x240ca1cc, 0x2de92c6f, 0x4a7484aa, 0x5cb0a9dc, 0x76f988da,
    0x983e5152, 0xa831c66d, 0xb00327c8, 0xbf597fc7, 0xc6e00bf3, 0xd5a79147, 0x06ca6351, 0x14292967,
    0x27b70a85, 0x2e1b2138, 0x4d2c6dfc, 0x53380d13, 0x650a7354, 0x766a0abb, 0x81c2c92e, 0x92722c85,
    0xa2bfe8a1, 0xa81a664b, 0xc24b8b70, 0xc76c51a3, 0xd192e819, 0xd6990624, 0xf40e3585, 0x106aa070,
    0x19a4c116, 0x1e376c08, 0x2748774c, 0x34b0bcb5, 0x391c0cb3, 0x4ed8aa4a, 0x5b9cca4f, 0x682e6ff3,
    0x748f82ee, 0x78a5636f, 0x84c87814, 0x8cc70208, 0x90befffa, 0xa4506ceb, 0xbef9a3f7, 0xc67178f2,
];

fn ch(x: u32, y: u32, z: u32) -> u32
    ensures { result ≡ ch_of x y z }
{
    (x & y) ^ (!x & z)
}

fn maj(x: u32, y: u32, z: u32) -> u32
    ensures { result ≡ maj_of x y z }
{
    (x & y) ^ (x & z) ^ (y & z)
}

// The four functions below shift where the standard rotates: what goes right, and then what goes
// left. So the compiler finds shifts, which the processor makes of four lanes at once, and no
// rotations, which it doesn't.
fn big_sigma0(x: u32) -> u32
    ensures { result ≡ big_sigma0_of x }
{
    let right = (x >> 2) ^ (x >> 13) ^ (x >> 22);
    let left = (x << 30) ^ (x << 19) ^ (x << 10);
    right ^ left
}

fn big_sigma1(x: u32) -> u32
    ensures { result ≡ big_sigma1_of x }
{
    let right = (x >> 6) ^ (x >> 11) ^ (x >> 25);
    let left = (x << 26) ^ (x << 21) ^ (x << 7);
    right ^ left
}

fn small_sigma0(x: u32) -> u32
    ensures { result ≡ small_sigma0_of x }
{
    let right = (x >> 3) ^ (x >> 7) ^ (x >> 18);
    let left = (x << 25) ^ (x << 14);
    right ^ left
}

fn small_sigma1(x: u32) -> u32
    ensures { result ≡ small_sigma1_of x }
{
    let right = (x >> 10) ^ (x >> 17) ^ (x >> 19);
    let left = (x << 15) ^ (x << 13);
    right ^ left
}

// The word at a place of the bytes.
fn word_at(bytes: &[u8], at: usize) -> u32
    requires { at + 4 ≤ length bytes.now }
    ensures { result ≡ word_at_of bytes.now at }
{
    u32::from_be_bytes([bytes[at], bytes[at + 1], bytes[at + 2], bytes[at + 3]])
}

// Of each lane the word at a place, where a lane has `stride` bytes.
fn words_at(bytes: &[u8], stride: usize, at: usize) -> Words
    requires lanes { length bytes.now ≡ 16 * stride }
    requires within { at + 4 ≤ stride }
    ensures { (i : ℕ) → i < 16 → slice_index result i ≡ word_at_of bytes.now (i * stride + at) }
{
    let mut words = [0u32; LANES];
    for i in 0..LANES {
        words[i] = word_at(bytes, i * stride + at);
    }
    words
}

// The first 16 words of each lane's block at a place, before 48 that aren't known yet.
fn first_words(bytes: &[u8], stride: usize, at: usize) -> [Words; 64]
    requires lanes { length bytes.now ≡ 16 * stride }
    requires within { at + 64 ≤ stride }
    ensures { (i t : ℕ) → i < 16 → t < 16
        → slice_index (lane i result) t ≡ word_at_of bytes.now (i * stride + at + 4 * t) }
{
    let mut words = [[0u32; LANES]; 64];
    for t in 0..16 {
        words[t] = words_at(bytes, stride, at + 4 * t);
    }
    words
}

// Of each lane the next word, after those 2, 7, 15 and 16 before it.
#[inline(never)]
fn next_words(second: &Words, seventh: &Words, fifteenth: &Words, sixteenth: &Words) -> Words
    ensures { (i : ℕ) → i < 16 → IsNextWord second.now seventh.now fifteenth.now sixteenth.now i
        (slice_index result i) }
{
    let mut words = [0u32; LANES];
    for i in 0..LANES {
        words[i] = small_sigma1(second[i])
            .wrapping_add(seventh[i])
            .wrapping_add(small_sigma0(fifteenth[i]))
            .wrapping_add(sixteenth[i]);
    }
    words
}

// The words of each lane's block at a place.
fn schedule(bytes: &[u8], stride: usize, at: usize) -> [Words; 64]
    requires lanes { length bytes.now ≡ 16 * stride }
    requires within { at + 64 ≤ stride }
    ensures { (i : ℕ) (block : List ℕ) → i < 16 → IsBlock bytes.now (i * stride + at) block
        → lane i result ≡ schedule_of block 48 }
{
    let mut words = first_words(bytes, stride, at);
    for t in 16..64 {
        words[t] = next_words(&words[t - 2], &words[t - 7], &words[t - 15], &words[t - 16]);
    }
    words
}

// One round of each lane, whose variables are `a` to `h`: the new `e` and `a` stand in `d` and `h`.
#[inline(never)]
fn round(
    a: &Words,
    b: &Words,
    c: &Words,
    d: &mut Words,
    e: &Words,
    f: &Words,
    g: &Words,
    h: &mut Words,
    k: u32,
    w: &Words,
)
    ensures { (i : ℕ) → i < 16
        → variables h.new a.now b.now c.now d.new e.now f.now g.now i ≡ round_of
        (variables a.now b.now c.now d.old e.now f.now g.now h.old i) k (slice_index w.now i) }
{
    let mut new_e = [0u32; LANES];
    let mut new_a = [0u32; LANES];
    for i in 0..LANES {
        let temp1 = h[i]
            .wrapping_add(big_sigma1(e[i]))
            .wrapping_add(ch(e[i], f[i], g[i]))
            .wrapping_add(k)
            .wrapping_add(w[i]);
        let temp2 = big_sigma0(a[i]).wrapping_add(maj(a[i], b[i], c[i]));
        new_e[i] = d[i].wrapping_add(temp1);
        new_a[i] = temp1.wrapping_add(temp2);
    }
    *d = new_e;
    *h = new_a;
}

// Eight rounds of each lane from round `t` on.
fn eight_rounds(v: &mut [Words; 8], words: &[Words; 64], t: usize)
    requires { t + 8 ≤ 64 }
    ensures { (i : ℕ) (h w : List ℕ) → i < 16 → lane i words.now ≡ w
        → lane i v.old ≡ rounds_of h w t → lane i v.new ≡ rounds_of h w (t + 8) }
{
    let [mut a, mut b, mut c, mut d, mut e, mut f, mut g, mut h] = *v;
    let (k, w) = (&ROUND[t..t + 8], &words[t..t + 8]);
    round(&a, &b, &c, &mut d, &e, &f, &g, &mut h, k[0], &w[0]);
    round(&h, &a, &b, &mut c, &d, &e, &f, &mut g, k[1], &w[1]);
    round(&g, &h, &a, &mut b, &c, &d, &e, &mut f, k[2], &w[2]);
    round(&f, &g, &h, &mut a, &b, &c, &d, &mut e, k[3], &w[3]);
    round(&e, &f, &g, &mut h, &a, &b, &c, &mut d, k[4], &w[4]);
    round(&d, &e, &f, &mut g, &h, &a, &b, &mut c, k[5], &w[5]);
    round(&c, &d, &e, &mut f, &g, &h, &a, &mut b, k[6], &w[6]);
    round(&b, &c, &d, &mut e, &f, &g, &h, &mut a, k[7], &w[7]);
    *v = [a, b, c, d, e, f, g, h];
}

// All rounds of each lane.
fn rounds(state: &[Words; 8], words: &[Words; 64]) -> [Words; 8]
    ensures { (i : ℕ) (w : List ℕ) → i < 16 → lane i words.now ≡ w
        → lane i result ≡ rounds_of (lane i state.now) w 64 }
{
    let mut v = *state;
    for turn in 0..8 {
        eight_rounds(&mut v, words, 8 * turn);
    }
    v
}

// Of each lane the sum of two words.
fn sums(x: &Words, y: &Words) -> Words
    ensures { (i : ℕ) → i < 16
        → slice_index result i ≡ add32 (slice_index x.now i) (slice_index y.now i) }
{
    let mut words = [0u32; LANES];
    for i in 0..LANES {
        words[i] = x[i].wrapping_add(y[i]);
    }
    words
}

// Takes each lane's block at a place into its hash value.
fn compress(state: &mut [Words; 8], bytes: &[u8], stride: usize, at: usize)
    requires lanes { length bytes.now ≡ 16 * stride }
    requires within { at + 64 ≤ stride }
    ensures { (i : ℕ) (block : List ℕ) → i < 16 → IsBlock bytes.now (i * stride + at) block
        → lane i state.new ≡ compressed (lane i state.old) block }
{
    let [a, b, c, d, e, f, g, h] = rounds(state, &schedule(bytes, stride, at));
    *state = [
        sums(&state[0], &a),
        sums(&state[1], &b),
        sums(&state[2], &c),
        sums(&state[3], &d),
        sums(&state[4], &e),
        sums(&state[5], &f),
        sums(&state[6], &g),
        sums(&state[7], &h),
    ];
}

// The hash value of each lane that has absorbed nothing.
fn initial() -> [Words; 8]
    ensures { (i : ℕ) → i < 16 → lane i result ≡ initial_hash_256 }
{
    [
        [INITIAL[0]; LANES],
        [INITIAL[1]; LANES],
        [INITIAL[2]; LANES],
        [INITIAL[3]; LANES],
        [INITIAL[4]; LANES],
        [INITIAL[5]; LANES],
        [INITIAL[6]; LANES],
        [INITIAL[7]; LANES],
    ]
}

// The hash value of each lane after its `blocks` blocks, which are all that it has.
fn hash_values(bytes: &[u8], blocks: usize) -> [Words; 8]
    requires lanes { length bytes.now ≡ 16 * (64 * blocks) }
    ensures { (messages : List (List ℕ)) → length messages ≡ 16
        → All (λ m. length (padded_message m) ≡ 64 * blocks) messages
        → bytes.now ≡ flat_map padded_message messages
        → (i : ℕ) → i < 16 → lane i result ≡ final_value (slice_index_or messages i []) }
{
    let mut state = initial();
    for n in 0..blocks {
        compress(&mut state, bytes, 64 * blocks, 64 * n);
    }
    state
}

// The digest of a lane by its hash value.
fn digest(state: &[Words; 8], i: usize) -> Hash
    requires { i < 16 }
    ensures { result ≡ digest_bytes (lane i state.now) 8 }
{
    let mut digest = [0u8; 32];
    for j in 0..8 {
        digest[4 * j..4 * j + 4].copy_from_slice(&state[j][i].to_be_bytes());
    }
    digest
}

/// The digests of sixteen messages. Their bytes stand one after another, each message's with its
/// padding, and are `blocks` blocks of 64 bytes each. What the digests of other bytes are isn't
/// said.
pub fn digests(padded: &[u8], blocks: usize) -> [Hash; LANES]
    requires lanes { length padded.now ≡ 16 * (64 * blocks) }
    ensures { (messages : List (List ℕ)) → length messages ≡ 16
        → All (λ m. length (padded_message m) ≡ 64 * blocks) messages
        → padded.now ≡ flat_map padded_message messages → result ≡ map sha256 messages }
{
    let state = hash_values(padded, blocks);
    let mut digests = [[0u8; 32]; LANES];
    for i in 0..LANES {
        digests[i] = digest(&state, i);
    }
    digests
}
