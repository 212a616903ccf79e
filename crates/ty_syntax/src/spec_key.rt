//! Package specifications as keys of maps.
ghost use Rattle.std.specs.Prelude.{◌≡◌, IfOk, refl};
ghost use Rattle.std.specs.Ordering.{as_partial_cmp};
ghost use Rattle.ty_model.specs.Values as plain;
ghost use Rattle.ty_syntax.specs.Spec.{spec_of};
ghost use Rattle.ty_syntax.specs.SpecOrder.{same_spec, spec_total, spec_equiv, spec_part, spec_order};

use crate::spec::PackageSpec;
use std::alloc::Global;
use std::cmp::Ordering;
use std::marker::Model;
use ty_path::{OutOfMemory, Share};

/// A package specification as the key of a map: compared and ordered by its namespace, its name and then its version.
/// Contracts see it as plain data.
#[derive(Debug, Drop)]
pub struct SpecKey {
    spec: PackageSpec,
}

impl Model for SpecKey {
    ghost use Rattle.ty_model.specs.Values.{Spec};
    ghost use Rattle.ty_syntax.specs.Spec.{spec_of};

    ghost Value = { Spec };

    ghost view = { λ k. spec_of k.spec };
}

impl SpecKey {
    /// The key of this specification.
    pub fn new(spec: PackageSpec) -> SpecKey
        ensures { result ≡ spec_of spec }
    {
        SpecKey { spec }
    }

    /// The specification.
    pub fn spec(&self) -> &PackageSpec
        ensures { spec_of result.now ≡ self.now }
    {
        &self.spec
    }
}

impl Share for SpecKey {
    ghost Seen = { plain.Spec };

    ghost seen = { λ k. k };

    fn share(&self, alloc: Global) -> Result<SpecKey, OutOfMemory> {
        Ok(SpecKey {
            spec: self.spec.share(alloc)?,
        })
    }
}

fn order_of_specs(a: &PackageSpec, b: &PackageSpec) -> Ordering
    ensures { result ≡ plain.spec_cmp (spec_of a.now) (spec_of b.now) }
{
    a.cmp(b)
}

impl PartialEq for SpecKey {
    ghost eq = { same_spec };

    ghost laws = { spec_part };

    fn eq(&self, other: &SpecKey) -> bool {
        self.cmp(other).is_eq()
    }
}

impl Eq for SpecKey {
    ghost laws = { spec_equiv };
}

impl PartialOrd for SpecKey {
    ghost partial_cmp = { as_partial_cmp plain.spec_cmp };

    ghost laws = { spec_order };

    fn partial_cmp(&self, other: &SpecKey) -> Option<Ordering> {
        Some(self.cmp(other))
    }
}

impl Ord for SpecKey {
    ghost cmp = { plain.spec_cmp };

    ghost total = { spec_total };

    ghost matches_partial_cmp = { λ x y. refl };

    ghost matches_eq = { λ x y. refl };

    fn cmp(&self, other: &SpecKey) -> Ordering {
        order_of_specs(&self.spec, &other.spec)
    }
}
