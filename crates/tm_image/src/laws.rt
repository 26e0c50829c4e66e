// The law, as the contract of a function that does nothing.
ghost use Rattle.tm_image.specs.Laws.{IsOpenedAgain};

/// The file that is built of two texts is opened, as itself.
pub fn opened_again(topo: &[u8], template: &[u8])
    ensures { IsOpenedAgain topo.now template.now }
{
    let _ = topo;
    let _ = template;
}
