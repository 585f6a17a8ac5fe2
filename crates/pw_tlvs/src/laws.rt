//! Laws of the layouts.
ghost use Rattle.std.specs.{Prelude.{◌≡◌, ◌<◌, ◌^◌, ℕ, List, true, length, take}, List.{AllByRecursion}};
ghost use Rattle.net_values.specs.declared.mac.Mac.{Mac};
ghost use Rattle.pw_tlvs.specs.{declared.fec_value.FecValue.{FecValue}, declared.fec_value.FecValue.TheVariants.{Pw, Foreign}};
ghost use Rattle.pw_tlvs.specs.{declared.field_fault.FieldFault.{FieldFault}, declared.pw_fec.PwFec.{PwFec}};
ghost use Rattle.pw_tlvs.specs.{declared.pw_status.PwStatus.{PwStatus}, declared.point.Point.{Point}, Faults.{IsFirstIn}};
ghost use Rattle.pw_tlvs.specs.{Fec.{IsFecValue, IsFecFault, IsFollowed}, Macs.{AreMacs, IsMacsFault, mac_octets}};
ghost use Rattle.pw_tlvs.specs.{Point.{IsPoint, IsPointFault}, Status.{IsPwStatus, IsStatusFault, written_status}};
ghost use Rattle.pw_tlvs.specs.Written.{IsFecInRange, IsPointInRange, writable_fec, written_fec, written_point};

/// What is written is a value, and the one that was written; so the read call answers it. It holds of all
/// numbers that the types hold.
pub fn written_is_read()
    ensures fec { (fec : PwFec) → writable_fec fec ≡ true → IsFecInRange fec → IsFecValue (written_fec fec) (Pw fec) }
    ensures status { (status : PwStatus) → status.0 < 2 ^ 32 → IsPwStatus (written_status status) status }
    ensures macs { (list : List Mac) → AllByRecursion (λ mac. length mac.0 ≡ 6) list → AreMacs (mac_octets list) list }
    ensures point { (point : Point) → IsPointInRange point → IsPoint (written_point point) point }
{}

/// Octets are one value at most.
pub fn one_value()
    ensures fec { (octets : List ℕ) (a b : FecValue) → IsFecValue octets a → IsFecValue octets b → a ≡ b }
    ensures status { (octets : List ℕ) (a b : PwStatus) → IsPwStatus octets a → IsPwStatus octets b → a ≡ b }
    ensures macs { (octets : List ℕ) (a b : List Mac) → AreMacs octets a → AreMacs octets b → a ≡ b }
    ensures point { (octets : List ℕ) (a b : Point) → IsPoint octets a → IsPoint octets b → a ≡ b }
{}

/// Octets that are a value have no fault, and other octets have one first fault at most.
pub fn one_fault()
    ensures fec { (octets : List ℕ) (value : FecValue) (fault : FieldFault) → IsFecValue octets value → IsFecFault octets fault → ⊥ }
    ensures status { (octets : List ℕ) (status : PwStatus) (fault : FieldFault) → IsPwStatus octets status → IsStatusFault octets fault → ⊥ }
    ensures macs { (octets : List ℕ) (list : List Mac) (fault : FieldFault) → AreMacs octets list → IsMacsFault octets fault → ⊥ }
    ensures point { (octets : List ℕ) (point : Point) (fault : FieldFault) → IsPoint octets point → IsPointFault octets fault → ⊥ }
    ensures first_of_fec { (octets : List ℕ) (a b : FieldFault) → IsFirstIn (IsFecFault octets) a → IsFirstIn (IsFecFault octets) b → a ≡ b }
    ensures first_of_status { (octets : List ℕ) (a b : FieldFault) → IsFirstIn (IsStatusFault octets) a → IsFirstIn (IsStatusFault octets) b → a ≡ b }
    ensures first_of_macs { (octets : List ℕ) (a b : FieldFault) → IsFirstIn (IsMacsFault octets) a → IsFirstIn (IsMacsFault octets) b → a ≡ b }
    ensures first_of_point { (octets : List ℕ) (a b : FieldFault) → IsFirstIn (IsPointFault octets) a → IsFirstIn (IsPointFault octets) b → a ≡ b }
{}

/// Where further octets follow a PWid element, nothing behind its information length is looked at: other octets
/// there are the same value.
pub fn followed_is_not_looked_into()
    ensures { (octets other : List ℕ) (first : ℕ) → IsFollowed octets first → take 4 octets ≡ take 4 other → length octets ≡ length other → IsFecValue other (Foreign first) }
{}
