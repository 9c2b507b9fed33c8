//! The requests that were made, and the next one.
use crate::Plan;
use std::cell::Cell;

/// The requests since a plan was set. No contract can state what a cell holds.
#[derive(Drop)]
pub(crate) struct Requests {
    plan: Cell<Plan>,
    requested: Cell<u64>,
    failed: Cell<bool>,
}

impl Requests {
    pub(crate) fn new(plan: Plan) -> Requests {
        Requests {
            plan: Cell::new(plan),
            requested: Cell::new(0),
            failed: Cell::new(false),
        }
    }

    pub(crate) fn restart(&self, plan: Plan) {
        self.plan.set(plan);
        self.requested.set(0);
        self.failed.set(false);
    }

    pub(crate) fn requested(&self) -> u64 {
        self.requested.get()
    }

    pub(crate) fn failed(&self) -> bool {
        self.failed.get()
    }

    /// Counts one more request, and returns whether it fails under the plan.
    pub(crate) fn fails_next(&self) -> bool {
        let number = self.requested.get().saturating_add(1);
        let fails = self.plan.get().fails(number);
        self.requested.set(number);
        self.failed.set(self.failed.get() || fails);
        fails
    }
}
