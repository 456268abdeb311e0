// The trial book: definitions in specs/, laws in proofs/; the code of a trial stands in crate `trials`.
#![tactic(auto)]

use refusal::Refusal;

// Why a refinement ended, or that it goes on: a refusal (the solver's 22, which keeps the best set, or 23, which refuses the fit), too few residuals, the damping, a small step.
#[derive(Clone, Copy)]
pub enum Ending {
    Running,
    Refused(Refusal),
    Short,
    Damped,
    Converged,
}
