// What a task asks of its deadline, in numbers: for the words of a deadline that is refused as too short.
ghost use Rattle.image.specs.Due.{DueAt};

use super::parts::TaskAt;
use places::Spot;

// A task's offset, its greatest time and its deadline.
#[derive(Clone, Copy)]
pub struct Due {
    pub offset: u32,
    pub time: u32,
    pub deadline: u32,
}

// Of the task of which some field holds a bit position, if there is one.
pub fn due_at(image: &[u8], place: usize) -> Option<Due>
    ensures { DueAt image.now place result }
{
    let Spot { at, modes } = places::task_at(image, place)?;
    let task = TaskAt { image, at, modes };
    let body = task.body();
    Some(Due {
        offset: body.offset,
        time: task.greatest_time(),
        deadline: body.deadline,
    })
}
