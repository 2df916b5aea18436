//! Laws of the states that are held.

ghost use Rattle.hz_block_model.specs.Texts.StateTexts.{IsListing};
ghost use Rattle.hz_rtl.specs.declared.state.State.{State};
ghost use Rattle.hz_rtl.specs.Listings.{listing};
ghost use Rattle.hz_rtl.specs.States.{words};

/// The words of the registers and the entries of the cells list a state: what its text is made of.
pub fn states_are_listed()
    ensures { (state : State) → IsListing (words state) (listing state) }
{}
