//! A network of a plan, as far as calm services are made of it.
ghost use Rattle.std.specs.Prelude.{◌≡◌, ◌<◌, ℕ, Bool, Some, length, slice_get};
ghost use Rattle.net_base.specs.plan.Accepted.{IsWithinLimits};

use net_base::{EdgeId, Plan, WireId, WirePlan};

/// A network of a plan.
pub trait PlannedNetwork {
    ghost use Rattle.net_base.specs.declared.plan.{Plan.{Plan as Rows}, wire_plan.WirePlan.{WirePlan as WireRow}};

    /// The plan.
    ghost plan: { Self → Rows };

    /// Between the two edges nothing is on its way, and either both ends of their connection stand or none.
    ghost settled: { Self → ℕ → ℕ → Bool };

    /// The wire with this place and row carries frames from one terminal edge to the other.
    ghost carries: { Self → ℕ → WireRow → Bool };

    /// The plan.
    fn plan(&self) -> &Plan
        ensures plan { result.now ≡ plan self.now }
        ensures limits { IsWithinLimits (plan self.now) };

    /// Whether the connection between two edges is settled.
    fn is_settled(&self, a: EdgeId, b: EdgeId) -> bool
        requires a { a.0 < length (plan self.now).edges }
        requires b { b.0 < length (plan self.now).edges }
        ensures { result ≡ settled self.now a.0 b.0 };

    /// Whether a wire of the plan carries frames.
    fn carries(&self, wire: WireId, row: &WirePlan) -> bool
        requires { slice_get (plan self.now).wires wire.0 ≡ Some row.now }
        ensures { result ≡ carries self.now wire.0 row.now };
}
