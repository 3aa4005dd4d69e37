//! The making of plans: a plan that is made from the relaxation and then changed as long as that saves something.
//!
//! Nothing is proved of the plans that come out: they are judged before they are used. All choices follow from counts
//! and drawn numbers, so that the same rows give the same plan.

use crate::allowance::Allowance;
use crate::costs::{UNLAWFUL, plan_cost};
use crate::plans::neighbourhood::Neighbourhood;
use crate::plans::present::Present;
use crate::plans::regrets::Regrets;
use crate::relaxation::Share;
use row_tables::Made;
use std::alloc::Global;

/// How many neighbourhoods are tried at most in one call.
const MOST_ATTEMPTS: usize = 10_000_000;

/// A plan under way, with what is needed to change it.
#[derive(Drop)]
pub struct Plans {
    alloc: Global,
    pub present: Present,
    neighbourhood: Neighbourhood,
    /// What the present plan costs, in seconds; very much where it isn't lawful.
    pub cost: i64,
}

impl Plans {
    /// A plan without rows. What is drawn follows from the number.
    pub fn new(alloc: Global, number: u64) -> Plans {
        Plans {
            alloc,
            present: Present::new(alloc),
            neighbourhood: Neighbourhood::new(alloc, number.wrapping_add(4242)),
            cost: UNLAWFUL,
        }
    }

    /// Makes a plan of the relaxation's shares: the rows in their order, then those of each vehicle by rising regret,
    /// where they still fit.
    pub fn round(&mut self, regrets: &Regrets, shares: &[Share]) -> Made<()> {
        self.present.begin(regrets.table)?;
        for share in shares {
            self.present.offer(regrets.table, share.1);
        }
        for vehicle in 0..regrets.table.vehicle_count() {
            for row in regrets.rows.list(vehicle) {
                self.present.offer(regrets.table, *row);
            }
        }
        self.count(regrets)
    }

    /// Takes this plan as the present one.
    pub fn adopt(&mut self, regrets: &Regrets, rows: &[Option<u32>]) -> Made<()> {
        self.present.begin(regrets.table)?;
        for row in rows {
            if let Some(row) = row {
                self.present.give(regrets.table, *row);
            }
        }
        self.count(regrets)
    }

    /// Chooses the rows of a few vehicles anew, over and over, until the plan costs no more than the bound, or nothing
    /// was saved so many times in a row, or the allowance is gone. Each choice is broken off after so many steps.
    pub fn better(
        &mut self,
        regrets: &Regrets,
        bound: i64,
        most_idle: u32,
        most_steps: u32,
        allowance: &mut Allowance,
    ) -> Made<()> {
        self.neighbourhood.begin(regrets.table)?;
        let mut idle: u32 = 0;
        for attempt in 0..MOST_ATTEMPTS {
            if self.cost <= bound || idle > most_idle || allowance.rest == 0 {
                break;
            }
            let size = 3 + attempt / 32 % 8;
            let walk = &mut self.neighbourhood;
            let saved = walk.attempt(regrets, &mut self.present, size, most_steps)?;
            allowance.spend(walk.choices.work);
            self.cost = self.cost.saturating_sub(saved / 1024);
            idle = if saved > 0 { 0 } else { idle.saturating_add(1) };
        }
        self.count(regrets)
    }

    fn count(&mut self, regrets: &Regrets) -> Made<()> {
        self.cost = plan_cost(self.alloc, regrets.table, &self.present.rows)?;
        Ok(())
    }
}
