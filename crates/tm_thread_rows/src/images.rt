// The images that are run.
ghost use Rattle.std.specs.Prelude.{IfSome};
ghost use Rattle.tm_world.specs.Sound.{Sound};

use std::alloc::Global;
use tm_image_build::{Image, build};

/// The topology and the template of an image. Its seed is 1.
#[derive(Clone, Copy)]
pub struct Texts {
    pub topology: &'static str,
    pub template: &'static str,
}

/// Four harts, and eight cases of drawn slots.
pub const DRAWN: Texts = Texts {
    topology: "cores = 2\nthreads = 2\nline = 64\nbias = 40\n",
    template: "template mixed\npasses 4\nwindow 0 true 4\nwindow 1 false 4\nwindow 2 own 8\n\
        case c0\nbody all\nmix 100 alu 4 load 3 store 3 branch 1\n\
        case c1\nbody all\nmix 100 alu 4 load 3 store 3 branch 1\n\
        case c2\nbody all\nmix 100 alu 4 load 3 store 3 branch 1\n\
        case c3\nbody all\nmix 100 alu 4 load 3 store 3 branch 1\n\
        case c4\nbody all\nmix 100 alu 4 load 3 store 3 branch 1\n\
        case c5\nbody all\nmix 100 alu 4 load 3 store 3 branch 1\n\
        case c6\nbody all\nmix 100 alu 4 load 3 store 3 branch 1\n\
        case c7\nbody all\nmix 100 alu 4 load 3 store 3 branch 1\n",
};

/// Two harts that store to one place and load from it, and so race.
pub const RACING: Texts = Texts {
    topology: "cores = 2\nthreads = 1\nline = 64\n",
    template: "template t\npasses 3\nwindow 0 true 1\ncase a\n\
        body hart 0\nemit sd x5, 0(x28)\nemit ld x6, 0(x28)\n\
        body hart 1\nemit sd x5, 0(x28)\nemit ld x6, 0(x28)\n",
};

/// The image of two texts, if they are read.
pub fn image_of(alloc: Global, texts: Texts) -> Option<Image>
    ensures { IfSome result (λ image. Sound image.program) }
{
    let topology = texts.topology.as_bytes();
    let template = texts.template.as_bytes();
    if topology.len() > 65_536 || template.len() > 1_048_576 {
        return None;
    }
    match build(alloc, topology, template, 1) {
        Ok(image) => Some(image),
        Err(_) => None,
    }
}
