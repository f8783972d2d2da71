ghost use Rattle.std.specs.Prelude.{◌≡◌, ◌-◌, ◌^◌, ◌<◌, [], None, true, false, IfOk, IsSome, MatchResult};
ghost use Rattle.causes.specs.Counts.{HasCause};
ghost use Rattle.usac_cfg.specs.UsacConfig.{IsWellFormed};
ghost use Rattle.core_iface.specs.Answering.{Answers, running, stepped, emitted, drained};
ghost use Rattle.core_iface.specs.Faults.{has_failed};
ghost use Rattle.core_iface.specs.Faulty.{over, fails_next, failed_call, passed_call, passed_reset, meaning_over, IsCalmOver};

use crate::cores::Core;
use crate::fault::CoreFault;
use causes::raised;
use std::alloc::{AllocError, Global};
use std::marker::Model;
use usac_cfg::UsacConfig;
use usac_frame::Unit;

/// A core over another one, of which listed calls fail. It is for tests of what a core's faults lead to.
///
/// Calls of `reset`, `step` and `flush` are counted together, from 1. A listed call fails and does not reach the core below;
/// behind it the core is not ready until a `reset` answers Ok.
#[derive(Drop)]
pub struct FaultyCore<C> {
    core: C,
    listed: Vec<u64>,
    calls: u64,
    failed: u64,
    broken: bool,
}

impl<C> Model for FaultyCore<C> {
    ghost use Rattle.core_iface.specs.Faulty.{Faulty, faulty_code};

    ghost Value = { Faulty C };

    ghost coded = { faulty_code C.code };

    ghost view = { λ f. record { core = f.core; listed = f.listed.items; calls = f.calls; failed = f.failed; broken = f.broken } };
}

impl<C: Core + Drop> FaultyCore<C> {
    /// A core over this one, with no call yet. The one error is out of memory: the core is dropped.
    pub fn new(alloc: Global, core: C, listed: &[u64]) -> Result<FaultyCore<C>, AllocError>
        ensures { IfOk result (λ faulty. faulty ≡ over core listed.now) }
    {
        let listed = listed.to_vec(alloc)?;
        Ok(FaultyCore {
            core,
            listed,
            calls: 0,
            failed: 0,
            broken: false,
        })
    }

    /// Counts a call, and fails where it is listed.
    fn count_call(&mut self) -> Result<(), CoreFault>
        ensures { MatchResult result
            (λ _. (fails_next self.old ≡ false) × (self.new ≡ passed_call self.old self.old.core))
            (λ fault. (fault ≡ CoreFault.Failed) × ((fails_next self.old ≡ true) × (self.new ≡ failed_call self.old))) }
    {
        self.calls = raised(self.calls);
        if self.listed.contains(&self.calls) {
            self.failed = raised(self.failed);
            self.broken = true;
            return Err(CoreFault::Failed);
        }
        Ok(())
    }
}

impl<C: Core + Drop> Core for FaultyCore<C> {
    ghost use Rattle.core_iface.specs.Faulty.{meaning_over, IsCalmOver};

    ghost does = { C.does };

    ghost meaning = { meaning_over C.meaning };

    ghost IsCalm = { IsCalmOver C.IsCalm };

    fn warm_up(&self, config: &UsacConfig) -> u32 {
        self.core.warm_up(config)
    }

    fn faults(&self) -> u64 {
        self.core.faults().saturating_add(self.failed)
    }

    fn fed(&self) -> u64 {
        self.core.fed()
    }

    fn reset(&mut self, alloc: Global, config: &UsacConfig) -> Result<(), CoreFault>
        requires { IsWellFormed config.now }
        ensures answers { Answers result (meaning_over C.meaning self.old) (meaning_over C.meaning self.new)
            (running config.now (C.does.init config.now)) 0 [] [] [] }
        ensures faults { HasCause (has_failed result) (meaning_over C.meaning self.old).faults (meaning_over C.meaning self.new).faults }
        ensures stays_calm { IsCalmOver C.IsCalm self.old → IsCalmOver C.IsCalm self.new }
        ensures calm_serves { IsCalmOver C.IsCalm self.old → C.does.serves config.now → has_failed result ≡ false }
        ensures listed { fails_next self.old ≡ true → (has_failed result ≡ true) × (self.new ≡ failed_call self.old) }
        ensures passed { fails_next self.old ≡ false → self.new ≡ passed_reset self.old self.new.core }
        ensures calm_below { fails_next self.old ≡ false → C.IsCalm self.old.core → C.does.serves config.now → has_failed result ≡ false }
        ensures below_stays_calm { C.IsCalm self.old.core → C.IsCalm self.new.core }
    {
        self.count_call()?;
        self.broken = false;
        self.core.reset(alloc, config)
    }

    fn step(&mut self, alloc: Global, unit: &Unit, out: &mut Vec<i16>) -> Result<(), CoreFault>
        requires ready { IsSome (meaning_over C.meaning self.old).ready }
        requires fed { (meaning_over C.meaning self.old).fed < 2 ^ 64 - 1 }
        ensures answers { Answers result (meaning_over C.meaning self.old) (meaning_over C.meaning self.new)
            (stepped C.does (meaning_over C.meaning self.old).ready unit.now) 1
            out.old.items out.new.items (emitted C.does (meaning_over C.meaning self.old).ready unit.now) }
        ensures faults { HasCause (has_failed result) (meaning_over C.meaning self.old).faults (meaning_over C.meaning self.new).faults }
        ensures stays_calm { IsCalmOver C.IsCalm self.old → IsCalmOver C.IsCalm self.new }
        ensures calm_never_fails { IsCalmOver C.IsCalm self.old → has_failed result ≡ false }
        ensures listed { fails_next self.old ≡ true → (has_failed result ≡ true) × (self.new ≡ failed_call self.old) }
        ensures passed { fails_next self.old ≡ false → self.new ≡ passed_call self.old self.new.core }
        ensures calm_below { fails_next self.old ≡ false → C.IsCalm self.old.core → has_failed result ≡ false }
        ensures below_stays_calm { C.IsCalm self.old.core → C.IsCalm self.new.core }
    {
        self.count_call()?;
        self.core.step(alloc, unit, out)
    }

    fn flush(&mut self, alloc: Global, out: &mut Vec<i16>) -> Result<(), CoreFault>
        requires { IsSome (meaning_over C.meaning self.old).ready }
        ensures answers { Answers result (meaning_over C.meaning self.old) (meaning_over C.meaning self.new) None 0
            out.old.items out.new.items (drained C.does (meaning_over C.meaning self.old).ready) }
        ensures faults { HasCause (has_failed result) (meaning_over C.meaning self.old).faults (meaning_over C.meaning self.new).faults }
        ensures stays_calm { IsCalmOver C.IsCalm self.old → IsCalmOver C.IsCalm self.new }
        ensures calm_never_fails { IsCalmOver C.IsCalm self.old → has_failed result ≡ false }
        ensures listed { fails_next self.old ≡ true → (has_failed result ≡ true) × (self.new ≡ failed_call self.old) }
        ensures passed { fails_next self.old ≡ false → self.new ≡ passed_call self.old self.new.core }
        ensures calm_below { fails_next self.old ≡ false → C.IsCalm self.old.core → has_failed result ≡ false }
        ensures below_stays_calm { C.IsCalm self.old.core → C.IsCalm self.new.core }
    {
        self.count_call()?;
        self.core.flush(alloc, out)
    }

    ghost stays_sound = { C.stays_sound };

    ghost emits_blocks = { C.emits_blocks };

    ghost warms_up = { C.warms_up };
}
