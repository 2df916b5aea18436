//! Laws of orders in which each reservation comes after those that it names.

ghost use Rattle.std.specs.Prelude.{◌≡◌, ℕ, List, None};
ghost use Rattle.hz_check_reservations.specs.Past.{ArePast, AreWithinExtents};
ghost use Rattle.hz_check_reservations.specs.Places.{reported};
ghost use Rattle.hz_check_reservations.specs.declared.listing.extents.PastExtents.{PastExtents};
ghost use Rattle.hz_description_model.specs.Check.CheckFaults.{IsUnfolded, faults_of_names};
ghost use Rattle.hz_description_model.specs.Check.Places.{Known};
ghost use Rattle.hz_description_model.specs.Check.CountingOrder.{Reserving};
ghost use Rattle.hz_description_model.specs.Check.FirstReported.{first_reported};
ghost use Rattle.hz_description_model.specs.Reading.Descriptions.{Description};
ghost use Rattle.hz_description_model.specs.Reading.DescriptionShape.{IsCheckable};
ghost use Rattle.hz_check_reservations.specs.Orders.{IsOrder, reservings};

/// Where reservations and classes have such an order, each name has its alternatives, and no reservation reaches itself.
pub fn ordered_names_are_known()
    ensures { (d : Description) (order : List ℕ) → IsCheckable d → first_reported (faults_of_names d) ≡ None → IsOrder d order → (known : Known) × IsUnfolded d known (reservings d order) }
{}

/// Where no site is reported, neither limit is passed.
pub fn no_site_is_within_extents()
    ensures { (d : Description) (order : List Reserving) (past : PastExtents) → ArePast d order past → reported past.alternatives ≡ None → reported past.cycles ≡ None → AreWithinExtents d order }
{}
