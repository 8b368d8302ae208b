// The image of a state (document 01, "Commitment map"), written to a second lent buffer.
ghost use Rattle.std.specs.Prelude.{◌≡◌};
ghost use Rattle.network.specs.Refused.{checked_as};
ghost use Rattle.engine.specs.Imaging.{image_answer_of, imaged_of};

use network::{Checked, Network, Refusal, Refused};

// The state is read, and its image written where the second buffer has its length.
fn imaged(state: &[u8], image: &mut [u8]) -> Result<(), Refused>
    ensures { (checked_as result ≡ image_answer_of state.now image.old) ×
        (image.new ≡ imaged_of state.now image.old) }
{
    let mut n = Network::blank();
    n.open(state)?;
    if image.len() != 5120 {
        return Err(Refused::from(Refusal::ImageLength));
    }
    let settled = broadcastnet::image(&n);
    settled.save(image);
    Ok(())
}

// "Refusals 1," 20 to 26, "18 in that order leave both buffers untouched; the state is never written."
pub fn relay_image(state: &[u8], image: &mut [u8]) -> Checked
    ensures { (result ≡ image_answer_of state.now image.old) ×
        (image.new ≡ imaged_of state.now image.old) }
{
    Checked::from(imaged(state, image))
}
