//! The S-box without a look-up: a circuit of 111 gates on planes, each the exclusive or or the and of two. It is that of Joan
//! Boyar and Rene Peralta, "A new combinational logic minimization technique with applications to cryptology" (2009), with
//! its names of wires. The byte is taken as two elements of the field of 16 elements: its inverse is made of the inverse of
//! their norm, which is an element of that field. The gates that give the complement are left out: what comes out is the S-box
//! without the 0x63 that its affine map adds.

ghost use Rattle.std.specs.Prelude.{◌≡◌};
ghost use Rattle.aes_planes.specs.Circuit.{sums_of, norm_of, norm_inverse, products_of, output};

use crate::planes::Eight;
use std::simd::prelude::*;

/// Sums of bits of the byte, in which its products are written. x7 is its lowest bit.
#[derive(Clone, Copy)]
pub(crate) struct Sums {
    pub(crate) y1: u8x16,
    pub(crate) y2: u8x16,
    pub(crate) y3: u8x16,
    pub(crate) y4: u8x16,
    pub(crate) y5: u8x16,
    pub(crate) y6: u8x16,
    pub(crate) y7: u8x16,
    pub(crate) y8: u8x16,
    pub(crate) y9: u8x16,
    pub(crate) y10: u8x16,
    pub(crate) y11: u8x16,
    pub(crate) y12: u8x16,
    pub(crate) y13: u8x16,
    pub(crate) y14: u8x16,
    pub(crate) y15: u8x16,
    pub(crate) y16: u8x16,
    pub(crate) y17: u8x16,
    pub(crate) y18: u8x16,
    pub(crate) y19: u8x16,
    pub(crate) y20: u8x16,
    pub(crate) y21: u8x16,
    pub(crate) x7: u8x16,
}

/// The four bits of the norm.
#[derive(Clone, Copy)]
pub(crate) struct Norm {
    pub(crate) t21: u8x16,
    pub(crate) t22: u8x16,
    pub(crate) t23: u8x16,
    pub(crate) t24: u8x16,
}

/// The four bits of its inverse, t29, t33, t37 and t40, and sums of them.
#[derive(Clone, Copy)]
pub(crate) struct NormInverse {
    pub(crate) t29: u8x16,
    pub(crate) t33: u8x16,
    pub(crate) t37: u8x16,
    pub(crate) t40: u8x16,
    pub(crate) t41: u8x16,
    pub(crate) t42: u8x16,
    pub(crate) t43: u8x16,
    pub(crate) t44: u8x16,
    pub(crate) t45: u8x16,
}

/// Products of the sums and of the inverse.
#[derive(Clone, Copy)]
pub(crate) struct Products {
    pub(crate) z0: u8x16,
    pub(crate) z1: u8x16,
    pub(crate) z2: u8x16,
    pub(crate) z3: u8x16,
    pub(crate) z4: u8x16,
    pub(crate) z5: u8x16,
    pub(crate) z6: u8x16,
    pub(crate) z7: u8x16,
    pub(crate) z8: u8x16,
    pub(crate) z9: u8x16,
    pub(crate) z10: u8x16,
    pub(crate) z11: u8x16,
    pub(crate) z12: u8x16,
    pub(crate) z13: u8x16,
    pub(crate) z14: u8x16,
    pub(crate) z15: u8x16,
    pub(crate) z16: u8x16,
    pub(crate) z17: u8x16,
}

/// The linear layer at the circuit's begin: 23 gates.
#[inline(always)]
#[tactic(auto, unfolding(crate::specs::Circuit::sums_of))]
pub(crate) fn sums_of(s: Eight) -> Sums
    ensures { result ≡ sums_of s }
{
    let y14 = s.v4 ^ s.v2;
    let y13 = s.v7 ^ s.v1;
    let y9 = s.v7 ^ s.v4;
    let y8 = s.v7 ^ s.v2;
    let t0 = s.v6 ^ s.v5;
    let y1 = t0 ^ s.v0;
    let y4 = y1 ^ s.v4;
    let y12 = y13 ^ y14;
    let y2 = y1 ^ s.v7;
    let y5 = y1 ^ s.v1;
    let y3 = y5 ^ y8;
    let t1 = s.v3 ^ y12;
    let y15 = t1 ^ s.v2;
    let y20 = t1 ^ s.v6;
    let y6 = y15 ^ s.v0;
    let y10 = y15 ^ t0;
    let y11 = y20 ^ y9;
    let y7 = s.v0 ^ y11;
    let y17 = y10 ^ y11;
    let y19 = y10 ^ y8;
    let y16 = t0 ^ y11;
    let y21 = y13 ^ y16;
    let y18 = s.v7 ^ y16;
    Sums {
        y1,
        y2,
        y3,
        y4,
        y5,
        y6,
        y7,
        y8,
        y9,
        y10,
        y11,
        y12,
        y13,
        y14,
        y15,
        y16,
        y17,
        y18,
        y19,
        y20,
        y21,
        x7: s.v0,
    }
}

/// The norm: 23 gates.
#[inline(always)]
#[tactic(auto, unfolding(crate::specs::Circuit::norm_of))]
pub(crate) fn norm_of(y: Sums) -> Norm
    ensures { result ≡ norm_of y }
{
    let t2 = y.y12 & y.y15;
    let t3 = y.y3 & y.y6;
    let t4 = t3 ^ t2;
    let t5 = y.y4 & y.x7;
    let t6 = t5 ^ t2;
    let t7 = y.y13 & y.y16;
    let t8 = y.y5 & y.y1;
    let t9 = t8 ^ t7;
    let t10 = y.y2 & y.y7;
    let t11 = t10 ^ t7;
    let t12 = y.y9 & y.y11;
    let t13 = y.y14 & y.y17;
    let t14 = t13 ^ t12;
    let t15 = y.y8 & y.y10;
    let t16 = t15 ^ t12;
    let t17 = t4 ^ t14;
    let t18 = t6 ^ t16;
    let t19 = t9 ^ t14;
    let t20 = t11 ^ t16;
    let t21 = t17 ^ y.y20;
    let t22 = t18 ^ y.y19;
    let t23 = t19 ^ y.y21;
    let t24 = t20 ^ y.y18;
    Norm { t21, t22, t23, t24 }
}

/// The inverse of the norm in the field of 16 elements: 21 gates.
#[inline(always)]
#[tactic(auto, unfolding(crate::specs::Circuit::norm_inverse))]
pub(crate) fn norm_inverse(n: Norm) -> NormInverse
    ensures { result ≡ norm_inverse n }
{
    let t25 = n.t21 ^ n.t22;
    let t26 = n.t21 & n.t23;
    let t27 = n.t24 ^ t26;
    let t28 = t25 & t27;
    let t29 = t28 ^ n.t22;
    let t30 = n.t23 ^ n.t24;
    let t31 = n.t22 ^ t26;
    let t32 = t31 & t30;
    let t33 = t32 ^ n.t24;
    let t34 = n.t23 ^ t33;
    let t35 = t27 ^ t33;
    let t36 = n.t24 & t35;
    let t37 = t36 ^ t34;
    let t38 = t27 ^ t36;
    let t39 = t29 & t38;
    let t40 = t25 ^ t39;
    let t41 = t40 ^ t37;
    let t42 = t29 ^ t33;
    let t43 = t29 ^ t40;
    let t44 = t33 ^ t37;
    let t45 = t42 ^ t41;
    NormInverse {
        t29,
        t33,
        t37,
        t40,
        t41,
        t42,
        t43,
        t44,
        t45,
    }
}

/// The products of the inverse: 18 gates.
#[inline(always)]
#[tactic(auto, unfolding(crate::specs::Circuit::products_of))]
pub(crate) fn products_of(y: Sums, i: NormInverse) -> Products
    ensures { result ≡ products_of y i }
{
    Products {
        z0: i.t44 & y.y15,
        z1: i.t37 & y.y6,
        z2: i.t33 & y.x7,
        z3: i.t43 & y.y16,
        z4: i.t40 & y.y1,
        z5: i.t29 & y.y7,
        z6: i.t42 & y.y11,
        z7: i.t45 & y.y17,
        z8: i.t41 & y.y10,
        z9: i.t44 & y.y12,
        z10: i.t37 & y.y3,
        z11: i.t33 & y.y4,
        z12: i.t43 & y.y13,
        z13: i.t40 & y.y5,
        z14: i.t29 & y.y2,
        z15: i.t42 & y.y9,
        z16: i.t45 & y.y14,
        z17: i.t41 & y.y8,
    }
}

/// The linear layer at its end: 26 gates. Four more would add 0x63.
#[inline(always)]
#[tactic(auto, unfolding(crate::specs::Circuit::output))]
pub(crate) fn output(z: Products) -> Eight
    ensures { result ≡ output z }
{
    let t46 = z.z15 ^ z.z16;
    let t47 = z.z10 ^ z.z11;
    let t48 = z.z5 ^ z.z13;
    let t49 = z.z9 ^ z.z10;
    let t50 = z.z2 ^ z.z12;
    let t51 = z.z2 ^ z.z5;
    let t52 = z.z7 ^ z.z8;
    let t53 = z.z0 ^ z.z3;
    let t54 = z.z6 ^ z.z7;
    let t55 = z.z16 ^ z.z17;
    let t56 = z.z12 ^ t48;
    let t57 = t50 ^ t53;
    let t58 = z.z4 ^ t46;
    let t59 = z.z3 ^ t54;
    let t60 = t46 ^ t57;
    let t61 = z.z14 ^ t57;
    let t62 = t52 ^ t58;
    let t63 = t49 ^ t58;
    let t64 = z.z4 ^ t59;
    let t65 = t61 ^ t62;
    let t66 = z.z1 ^ t63;
    let s3 = t53 ^ t66;
    let t67 = t64 ^ t65;
    Eight {
        v0: t48 ^ t60,
        v1: t56 ^ t62,
        v2: t47 ^ t65,
        v3: t51 ^ t66,
        v4: s3,
        v5: t55 ^ t67,
        v6: t64 ^ s3,
        v7: t59 ^ t63,
    }
}
