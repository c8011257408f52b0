//! The zones that a worker leaves out by the bound, with the mask that it made last.

ghost use Rattle.std.specs.Prelude.{◌≡◌, Some, None, IfOk, IfSome, OnErr};
ghost use Rattle.vx_expr.specs.Bound.{IsBoundTo};
ghost use Rattle.vx_zones.specs.Prunes.{pruned_zones};
ghost use Rattle.vx_bound.specs.Bounds.{IsSeatOf};
ghost use Rattle.vx_bound.specs.KeptMasks.{pruned_data};
ghost use Rattle.vx_bound.specs.PrunedMasks.{HasLoadedOnce, MaskGives};

use crate::bounds::{BoundSeat, BoundTable};
use std::alloc::{AllocError, Global};
use std::marker::Model;
use vx_base::Mask;
use vx_zones::{ZoneProof, ZoneTable};

/// A mask of pruned zones, and the key at which they are pruned.
#[derive(Drop)]
pub struct BoundMask {
    pub mask: Mask,
    pub key: u64,
}

/// A table of zones and a proof that prunes them. Each worker has a copy of its own, and keeps its last mask beside its
/// key.
pub struct PrunedZones {
    alloc: Global,
    zones: ZoneTable,
    proof: ZoneProof,
    kept: Option<BoundMask>,
}

impl Drop for PrunedZones {
    fn drop(self) {
        let PrunedZones {
            alloc: _,
            zones: _,
            proof: _,
            kept: _,
        } = self;
    }
}

impl Model for PrunedZones {
    ghost use Rattle.std.specs.Prelude.{option_map};
    ghost use Rattle.vx_bound.specs.KeptMasks.{PrunedData, coded_pruned, pruned_data, AreKept};

    ghost Value = { PrunedData };

    ghost coded = { coded_pruned };

    ghost view = { λ a. pruned_data a.zones a.proof (option_map (λ kept. (kept.key, kept.mask)) a.kept) };

    ghost invariant = { λ a. AreKept (pruned_data a.zones a.proof (option_map (λ kept. (kept.key, kept.mask)) a.kept)) };
}

impl PrunedZones {
    /// These zones and this proof, and no mask yet: masks will take memory by `alloc`. It takes none itself.
    pub fn new(alloc: Global, zones: ZoneTable, proof: ZoneProof) -> PrunedZones
        requires { IsBoundTo proof zones.dtype }
        ensures { result ≡ pruned_data zones proof None }
    {
        PrunedZones {
            alloc,
            zones,
            proof,
            kept: None,
        }
    }

    /// The same zones and the same proof in memory of their own, and no mask yet.
    pub fn copy(&self, alloc: Global) -> Result<PrunedZones, AllocError>
        ensures { IfOk result (λ copied. copied ≡ pruned_data self.now.table self.now.predicate None) }
    {
        let zones = self.zones.copy(alloc)?;
        let proof = self.proof.copy(alloc)?;
        Ok(PrunedZones::new(alloc, zones, proof))
    }

    /// The kept mask, where it was made at this key, in memory of its own.
    #[tactic(auto, using(crate::proofs::MaskRights::kept_shown, crate::proofs::MaskRights::kept_right))]
    fn kept_at(&self, key: u64) -> Result<Option<Mask>, AllocError>
        ensures kept { IfOk result (λ found. IfSome found (λ mask. self.now.kept ≡ Some (key, mask))) }
        ensures right { IfOk result (λ found. IfSome found (λ mask. mask ≡ pruned_zones key self.now.predicate.term self.now.table)) }
    {
        match &self.kept {
            Some(kept) if kept.key == key => {
                let mask = kept.mask.copy(self.alloc)?;
                Ok(Some(mask))
            }
            _ => Ok(None),
        }
    }

    /// The zones that are pruned at this key, by a pass over the table. The mask is kept in place of the last one.
    fn prune_at(&mut self, key: u64) -> Result<BoundMask, AllocError>
        ensures key { IfOk result (λ made. made.key ≡ key) }
        ensures mask { IfOk result (λ made. made.mask ≡ pruned_zones key self.old.predicate.term self.old.table) }
        ensures kept { IfOk result (λ made. self.new ≡ pruned_data self.old.table self.old.predicate (Some (made.key, made.mask))) }
        ensures refused { OnErr result (self.new ≡ self.old) }
    {
        let mask = self.zones.prune(self.alloc, &self.proof, key)?;
        let kept = mask.copy(self.alloc)?;
        self.kept = Some(BoundMask { mask: kept, key });
        Ok(BoundMask { mask, key })
    }

    /// The zones that the predicate prunes at the bound as it is now, and that bound. Where the last mask was made at an
    /// equal key it takes a load, a comparison and a copy of its words. Where there is no memory left, the zones and the
    /// kept mask stay as they were, and the seat has loaded the bound once.
    pub fn mask(
        &mut self,
        table: &BoundTable,
        seat: &mut BoundSeat,
    ) -> Result<BoundMask, AllocError>
        requires { IsSeatOf table.now seat.old }
        ensures seat { IsSeatOf table.now seat.new }
        ensures loaded { HasLoadedOnce seat.old seat.new }
        ensures mask { IfOk result (λ made. MaskGives self.old.table self.old.predicate seat.new made) }
        ensures kept { IfOk result (λ made. self.new ≡ pruned_data self.old.table self.old.predicate (Some (made.key, made.mask))) }
        ensures refused { OnErr result (self.new ≡ self.old) }
    {
        let key = table.load(seat);
        match self.kept_at(key) {
            Ok(Some(mask)) => Ok(BoundMask { mask, key }),
            Ok(None) => self.prune_at(key),
            Err(error) => Err(error),
        }
    }
}
