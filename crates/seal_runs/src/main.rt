//! Checks streams, capsules and layers against values of RFC 8439 and of another program. A line is printed for what
//! held; the first comparison that fails ends the program.
#![tactic(auto)]

mod capsules;
mod layers;
mod pads;

use anyhow::Result;

fn main(rt: HostRuntime) -> Result<()> {
    let alloc = rt.alloc();
    pads::short_streams_and_pads(alloc)?;
    println!(rt; "pad_stream: short streams and pads")?;
    pads::exclusive_or_of_two_bytes()?;
    println!(rt; "pad_stream: exclusive or of two bytes")?;
    pads::pads_at_the_limit_agree(alloc)?;
    println!(rt; "pad_stream: pads at the limit agree")?;
    capsules::what_is_sealed_opens_and_a_raised_coefficient_does_not()?;
    println!(rt; "ring_encrypt: what is sealed opens, and a raised coefficient does not")?;
    capsules::a_key_is_read_back_and_a_seed_revealed()?;
    println!(rt; "ring_encrypt: a key is read back, and a seed revealed")?;
    layers::a_layer_opens_to_what_was_sealed(alloc)?;
    println!(rt; "layer_cipher: a layer opens to what was sealed")?;
    layers::a_long_layer_is_that_of_another_program(alloc)?;
    println!(rt; "layer_cipher: a long layer is that of another program")?;
    layers::eight_layers_come_off_the_first_key_outermost(alloc)?;
    println!(rt; "layer_cipher: eight layers come off, the first key outermost")?;
    Ok(())
}
