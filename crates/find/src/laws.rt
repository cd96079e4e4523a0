//! Laws of marks.

ghost use Rattle.std.specs.Prelude.{◌≡◌, List, true, false};
ghost use Rattle.ck_types.specs.declared.attr_type.AttrType.TheVariants as attr;
ghost use Rattle.ck_types.specs.declared.entry.Entry.{Entry as AnEntry};
ghost use Rattle.attrs.specs.Objects.{flag};
ghost use Rattle.attrs.specs.Masking.{mask};
ghost use Rattle.find.specs.Matching.{template_matches};
ghost use Rattle.find.specs.Codes.{are_decided, codes_match};
ghost use Rattle.find.specs.Marks.{excludes, mark_of, wanted_of};

/// An object whose mark is excluded by what a template wants is one that the template doesn't find, so a search may pass over
/// it. One that the template finds isn't excluded (PKCS #11 v3.1, 5.7.7).
pub fn marks_pass_over()
    ensures excluded { (o template : List AnEntry) → excludes (wanted_of template) (mark_of o) ≡ true → template_matches template o ≡ false }
    ensures found { (o template : List AnEntry) → template_matches template o ≡ true → excludes (wanted_of template) (mark_of o) ≡ false }
{}

/// Where a template has nothing but truth values, classes and key types, a mark says whether it finds the object.
pub fn marks_decide()
    ensures { (o template : List AnEntry) → are_decided template ≡ true → codes_match (mark_of o).codes template ≡ template_matches template o }
{}

/// A mark has nothing of a value that is masked: it is that of what may be seen of the object.
pub fn marks_are_blind()
    ensures { (o : List AnEntry) → mark_of (mask o) ≡ mark_of o }
{}

/// A mark says of an object whether it is private.
pub fn marks_tell_privacy()
    ensures { (o : List AnEntry) → (mark_of o).private ≡ flag o attr.Private }
{}
