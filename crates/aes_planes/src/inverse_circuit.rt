//! The inverse S-box without a look-up: a circuit of 127 gates on planes, each the exclusive or or the and of two. It is that of
//! Joan Boyar and Rene Peralta, "A depth-16 circuit for the AES S-box" (2011), in the reverse direction. The names of wires are
//! theirs. The gates that give the complement are left out: in place of them 0x63 is added to the byte before.

ghost use Rattle.std.specs.Prelude.{◌≡◌};
ghost use Rattle.aes_planes.specs.InverseCircuit.{sums_back, norm_back, norm_inverse_back, products_back, output_back};

use crate::planes::Eight;
use std::simd::prelude::*;

/// Sums of bits of the byte, in which its products are written.
#[derive(Clone, Copy)]
pub(crate) struct SumsBack {
    pub(crate) t1: u8x16,
    pub(crate) t2: u8x16,
    pub(crate) t3: u8x16,
    pub(crate) t4: u8x16,
    pub(crate) t6: u8x16,
    pub(crate) t8: u8x16,
    pub(crate) t9: u8x16,
    pub(crate) t10: u8x16,
    pub(crate) t13: u8x16,
    pub(crate) t14: u8x16,
    pub(crate) t15: u8x16,
    pub(crate) t16: u8x16,
    pub(crate) t17: u8x16,
    pub(crate) t19: u8x16,
    pub(crate) t20: u8x16,
    pub(crate) t22: u8x16,
    pub(crate) t23: u8x16,
    pub(crate) t24: u8x16,
    pub(crate) t25: u8x16,
    pub(crate) t26: u8x16,
    pub(crate) t27: u8x16,
    pub(crate) y5: u8x16,
}

/// The four bits of the norm.
#[derive(Clone, Copy)]
pub(crate) struct NormBack {
    pub(crate) m20: u8x16,
    pub(crate) m21: u8x16,
    pub(crate) m22: u8x16,
    pub(crate) m23: u8x16,
}

/// The four bits of its inverse, m37 to m40, and sums of them.
#[derive(Clone, Copy)]
pub(crate) struct NormInverseBack {
    pub(crate) m37: u8x16,
    pub(crate) m38: u8x16,
    pub(crate) m39: u8x16,
    pub(crate) m40: u8x16,
    pub(crate) m41: u8x16,
    pub(crate) m42: u8x16,
    pub(crate) m43: u8x16,
    pub(crate) m44: u8x16,
    pub(crate) m45: u8x16,
}

/// Products of the sums and of the inverse.
#[derive(Clone, Copy)]
pub(crate) struct ProductsBack {
    pub(crate) m46: u8x16,
    pub(crate) m47: u8x16,
    pub(crate) m48: u8x16,
    pub(crate) m49: u8x16,
    pub(crate) m50: u8x16,
    pub(crate) m51: u8x16,
    pub(crate) m52: u8x16,
    pub(crate) m53: u8x16,
    pub(crate) m54: u8x16,
    pub(crate) m55: u8x16,
    pub(crate) m56: u8x16,
    pub(crate) m57: u8x16,
    pub(crate) m58: u8x16,
    pub(crate) m59: u8x16,
    pub(crate) m60: u8x16,
    pub(crate) m61: u8x16,
    pub(crate) m62: u8x16,
    pub(crate) m63: u8x16,
}

/// The linear layer at the circuit's begin: 27 gates.
#[inline(always)]
#[tactic(auto, unfolding(crate::specs::InverseCircuit::sums_back))]
pub(crate) fn sums_back(s: Eight) -> SumsBack
    ensures { result ≡ sums_back s }
{
    let t23 = s.v7 ^ s.v4;
    let t22 = s.v6 ^ s.v4;
    let t2 = s.v7 ^ s.v6;
    let t1 = s.v4 ^ s.v3;
    let t24 = s.v3 ^ s.v0;
    let r5 = s.v1 ^ s.v0;
    let t8 = s.v6 ^ t23;
    let t19 = t22 ^ r5;
    let t9 = s.v0 ^ t1;
    let t10 = t2 ^ t24;
    let t13 = t2 ^ r5;
    let t3 = t1 ^ r5;
    let t25 = s.v5 ^ t1;
    let r13 = s.v6 ^ s.v1;
    let t17 = s.v5 ^ t19;
    let t20 = t24 ^ r13;
    let t4 = s.v3 ^ t8;
    let r17 = s.v5 ^ s.v2;
    let r18 = s.v2 ^ s.v1;
    let r19 = s.v5 ^ s.v3;
    let y5 = s.v7 ^ r17;
    let t6 = t22 ^ r17;
    let t16 = r13 ^ r19;
    let t27 = t1 ^ r18;
    let t15 = t10 ^ t27;
    let t14 = t10 ^ r18;
    let t26 = t3 ^ t16;
    SumsBack {
        t1,
        t2,
        t3,
        t4,
        t6,
        t8,
        t9,
        t10,
        t13,
        t14,
        t15,
        t16,
        t17,
        t19,
        t20,
        t22,
        t23,
        t24,
        t25,
        t26,
        t27,
        y5,
    }
}

/// The norm: 23 gates.
#[inline(always)]
#[tactic(auto, unfolding(crate::specs::InverseCircuit::norm_back))]
pub(crate) fn norm_back(t: SumsBack) -> NormBack
    ensures { result ≡ norm_back t }
{
    let m1 = t.t13 & t.t6;
    let m2 = t.t23 & t.t8;
    let m3 = t.t14 ^ m1;
    let m4 = t.t19 & t.y5;
    let m5 = m4 ^ m1;
    let m6 = t.t3 & t.t16;
    let m7 = t.t22 & t.t9;
    let m8 = t.t26 ^ m6;
    let m9 = t.t20 & t.t17;
    let m10 = m9 ^ m6;
    let m11 = t.t1 & t.t15;
    let m12 = t.t4 & t.t27;
    let m13 = m12 ^ m11;
    let m14 = t.t2 & t.t10;
    let m15 = m14 ^ m11;
    let m16 = m3 ^ m2;
    let m17 = m5 ^ t.t24;
    let m18 = m8 ^ m7;
    let m19 = m10 ^ m15;
    let m20 = m16 ^ m13;
    let m21 = m17 ^ m15;
    let m22 = m18 ^ m13;
    let m23 = m19 ^ t.t25;
    NormBack { m20, m21, m22, m23 }
}

/// The inverse of the norm in the field of 16 elements: 22 gates.
#[inline(always)]
#[tactic(auto, unfolding(crate::specs::InverseCircuit::norm_inverse_back))]
pub(crate) fn norm_inverse_back(n: NormBack) -> NormInverseBack
    ensures { result ≡ norm_inverse_back n }
{
    let m24 = n.m22 ^ n.m23;
    let m25 = n.m22 & n.m20;
    let m26 = n.m21 ^ m25;
    let m27 = n.m20 ^ n.m21;
    let m28 = n.m23 ^ m25;
    let m29 = m28 & m27;
    let m30 = m26 & m24;
    let m31 = n.m20 & n.m23;
    let m32 = m27 & m31;
    let m33 = m27 ^ m25;
    let m34 = n.m21 & n.m22;
    let m35 = m24 & m34;
    let m36 = m24 ^ m25;
    let m37 = n.m21 ^ m29;
    let m38 = m32 ^ m33;
    let m39 = n.m23 ^ m30;
    let m40 = m35 ^ m36;
    let m41 = m38 ^ m40;
    let m42 = m37 ^ m39;
    let m43 = m37 ^ m38;
    let m44 = m39 ^ m40;
    let m45 = m42 ^ m41;
    NormInverseBack {
        m37,
        m38,
        m39,
        m40,
        m41,
        m42,
        m43,
        m44,
        m45,
    }
}

/// The products of the inverse: 18 gates.
#[inline(always)]
#[tactic(auto, unfolding(crate::specs::InverseCircuit::products_back))]
pub(crate) fn products_back(t: SumsBack, i: NormInverseBack) -> ProductsBack
    ensures { result ≡ products_back t i }
{
    ProductsBack {
        m46: i.m44 & t.t6,
        m47: i.m40 & t.t8,
        m48: i.m39 & t.y5,
        m49: i.m43 & t.t16,
        m50: i.m38 & t.t9,
        m51: i.m37 & t.t17,
        m52: i.m42 & t.t15,
        m53: i.m45 & t.t27,
        m54: i.m41 & t.t10,
        m55: i.m44 & t.t13,
        m56: i.m40 & t.t23,
        m57: i.m39 & t.t19,
        m58: i.m43 & t.t3,
        m59: i.m38 & t.t22,
        m60: i.m37 & t.t20,
        m61: i.m42 & t.t1,
        m62: i.m45 & t.t4,
        m63: i.m41 & t.t2,
    }
}

/// The linear layer at its end: 37 gates.
#[inline(always)]
#[tactic(auto, unfolding(crate::specs::InverseCircuit::output_back))]
pub(crate) fn output_back(m: ProductsBack) -> Eight
    ensures { result ≡ output_back m }
{
    let p0 = m.m52 ^ m.m61;
    let p1 = m.m58 ^ m.m59;
    let p2 = m.m54 ^ m.m62;
    let p3 = m.m47 ^ m.m50;
    let p4 = m.m48 ^ m.m56;
    let p5 = m.m46 ^ m.m51;
    let p6 = m.m49 ^ m.m60;
    let p7 = p0 ^ p1;
    let p8 = m.m50 ^ m.m53;
    let p9 = m.m55 ^ m.m63;
    let p10 = m.m57 ^ p4;
    let p11 = p0 ^ p3;
    let p12 = m.m46 ^ m.m48;
    let p13 = m.m49 ^ m.m51;
    let p14 = m.m49 ^ m.m62;
    let p15 = m.m54 ^ m.m59;
    let p16 = m.m57 ^ m.m61;
    let p17 = m.m58 ^ p2;
    let p18 = m.m63 ^ p5;
    let p19 = p2 ^ p3;
    let p20 = p4 ^ p6;
    let p22 = p2 ^ p7;
    let p23 = p7 ^ p8;
    let p24 = p5 ^ p7;
    let p25 = p6 ^ p10;
    let p26 = p9 ^ p11;
    let p27 = p10 ^ p18;
    let p28 = p11 ^ p25;
    let p29 = p15 ^ p20;
    Eight {
        v0: p9 ^ p16,
        v1: p14 ^ p23,
        v2: p19 ^ p24,
        v3: p23 ^ p27,
        v4: p12 ^ p22,
        v5: p17 ^ p28,
        v6: p26 ^ p29,
        v7: p13 ^ p22,
    }
}
