ghost use Rattle.input_rows.specs.made.Texts.{texts_of};
ghost use Rattle.input_rows.specs.made.Accepted.{AreReadable};

use rider_limits::LoadShape;

/// A law: the network, the fleet and the script that are made of a shape are accepted.
pub fn made_inputs_are_accepted(shape: &LoadShape)
    ensures { AreReadable (texts_of shape.now) }
{
    let _ = shape;
}
