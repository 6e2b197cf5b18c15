// The compression function F of section 3.2, with the mixing function G of 3.1.
#![tactic(auto)]

ghost use Rattle.std.specs.Prelude.{◌≡◌, ◌+◌, ◌%◌, ◌^◌, ◌<◌, ◌≤◌, slice_index};
ghost use Rattle.blake2b_spec.specs.Blake2b as spec;

// The initialization vector of section 2.6.
pub const IV: [u64; 8] = [
    0x6a09_e667_f3bc_c908,
    0xbb67_ae85_84ca_a73b,
    0x3c6e_f372_fe94_f82b,
    0xa54f_f53a_5f1d_36f1,
    0x510e_527f_ade6_82d1,
    0x9b05_688c_2b3e_6c1f,
    0x1f83_d9ab_fb41_bd6b,
    0x5be0_cd19_137e_2179,
];

// x >>> n
fn rotr(x: u64, n: u64) -> u64
    requires { (0 < n) × (n < 64) }
    ensures { result ≡ spec.rotr x n }
{
    (x >> n) ^ (x << (64 - n))
}

// (a + b + x) mod 2**64
fn sum3(a: u64, b: u64, x: u64) -> u64
    ensures { result ≡ (a + b + x) % 2 ^ 64 }
{
    std::num::wrapping_add_u64(std::num::wrapping_add_u64(a, b), x)
}

// v[a] := (v[a] + v[b] + x) mod 2**64
fn add(v: &mut [u64; 16], a: usize, b: usize, x: u64)
    requires { (a < 16) × (b < 16) }
    ensures { v.new ≡ spec.add v.old a b x }
{
    v[a] = sum3(v[a], v[b], x);
}

// v[d] := (v[d] ^ v[a]) >>> n
fn xor_rotr(v: &mut [u64; 16], d: usize, a: usize, n: u64)
    requires { (d < 16) × (a < 16) × (0 < n) × (n < 64) }
    ensures { v.new ≡ spec.xor_rotr v.old d a n }
{
    v[d] = rotr(v[d] ^ v[a], n);
}

// The mixing function G.
fn mix(v: &mut [u64; 16], a: usize, b: usize, c: usize, d: usize, x: u64, y: u64)
    requires { (a < 16) × (b < 16) × (c < 16) × (d < 16) }
    ensures { v.new ≡ spec.mix v.old a b c d x y }
{
    add(v, a, b, x);
    xor_rotr(v, d, a, 32);
    add(v, c, d, 0);
    xor_rotr(v, b, c, 24);
    add(v, a, b, y);
    xor_rotr(v, d, a, 16);
    add(v, c, d, 0);
    xor_rotr(v, b, c, 63);
}

// The message word that place i of the schedule names.
fn word(m: &[u64; 16], sigma: &[u8; 160], i: usize) -> u64
    requires { (i < 160) × (sigma.now ≡ spec.sigma) }
    ensures { result ≡ spec.word m.now i }
{
    m[sigma[i] as usize]
}

// G with the two message words that places i and i + 1 of the schedule name.
fn mix_words(
    v: &mut [u64; 16],
    m: &[u64; 16],
    sigma: &[u8; 160],
    i: usize,
    a: usize,
    b: usize,
    c: usize,
    d: usize,
)
    requires { (i + 1 < 160) × (a < 16) × (b < 16) × (c < 16) × (d < 16) × (sigma.now ≡ spec.sigma) }
    ensures { v.new ≡ spec.mix v.old a b c d (spec.word m.now i) (spec.word m.now (i + 1)) }
{
    mix(v, a, b, c, d, word(m, sigma, i), word(m, sigma, i + 1));
}

// The four mixings of columns, with the words that the schedule names from base on.
fn columns(v: &mut [u64; 16], m: &[u64; 16], sigma: &[u8; 160], base: usize)
    requires { (base + 16 ≤ 160) × (sigma.now ≡ spec.sigma) }
    ensures { v.new ≡ spec.columns v.old m.now base }
{
    mix_words(v, m, sigma, base, 0, 4, 8, 12);
    mix_words(v, m, sigma, base + 2, 1, 5, 9, 13);
    mix_words(v, m, sigma, base + 4, 2, 6, 10, 14);
    mix_words(v, m, sigma, base + 6, 3, 7, 11, 15);
}

// The four mixings of diagonals.
fn diagonals(v: &mut [u64; 16], m: &[u64; 16], sigma: &[u8; 160], base: usize)
    requires { (base + 16 ≤ 160) × (sigma.now ≡ spec.sigma) }
    ensures { v.new ≡ spec.diagonals v.old m.now base }
{
    mix_words(v, m, sigma, base + 8, 0, 5, 10, 15);
    mix_words(v, m, sigma, base + 10, 1, 6, 11, 12);
    mix_words(v, m, sigma, base + 12, 2, 7, 8, 13);
    mix_words(v, m, sigma, base + 14, 3, 4, 9, 14);
}

// The twelve rounds.
fn rounds(v: &mut [u64; 16], m: &[u64; 16], sigma: &[u8; 160])
    requires { sigma.now ≡ spec.sigma }
    ensures { v.new ≡ spec.rounds v.old m.now 12 }
{
    for i in 0..12 {
        let base = (i % 10) * 16;
        columns(v, m, sigma, base);
        diagonals(v, m, sigma, base);
    }
}

// Word 14 of the work vector.
fn flag(last: bool) -> u64
    ensures { result ≡ spec.flagged last (slice_index spec.iv 6) }
{
    if last {
        IV[6] ^ 0xffff_ffff_ffff_ffff
    } else {
        IV[6]
    }
}

// The work vector at the start; the counter fits a word, so that its high word is zero.
fn work(h: &[u64; 8], t: u64, last: bool) -> [u64; 16]
    ensures { result ≡ spec.work h.now t last }
{
    let f = flag(last);
    [
        h[0],
        h[1],
        h[2],
        h[3],
        h[4],
        h[5],
        h[6],
        h[7],
        IV[0],
        IV[1],
        IV[2],
        IV[3],
        IV[4] ^ t,
        IV[5],
        f,
        IV[7],
    ]
}

// The state folded with the two halves of the work vector.
fn fold(h: &[u64; 8], v: &[u64; 16]) -> [u64; 8]
    ensures { result ≡ spec.tabulate (spec.fold h.now v.now) 8 }
{
    let mut r = [0u64; 8];
    for i in 0..8 {
        r[i] = h[i] ^ v[i] ^ v[i + 8];
    }
    r
}

// The compression function F.
pub fn compress(h: &[u64; 8], m: &[u64; 16], sigma: &[u8; 160], t: u64, last: bool) -> [u64; 8]
    requires { sigma.now ≡ spec.sigma }
    ensures { result ≡ spec.compress h.now m.now t last }
{
    let mut v = work(h, t, last);
    rounds(&mut v, m, sigma);
    fold(h, &v)
}
