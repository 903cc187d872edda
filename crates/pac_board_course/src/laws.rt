//! Laws of courses.

ghost use Rattle.pac_board_course.specs.Laws.{CoursesAreResumed, CoursesBegin, CoursesGoOn};

/// A course goes on as it would have, from wherever it is left.
pub fn courses_go_on()
    ensures { CoursesGoOn }
{}

/// What a course from power-on has left is the whole trace of its script.
pub fn courses_begin()
    ensures { CoursesBegin }
{}

/// What a course has left, wherever it begins, is the run of its script taken up there.
pub fn courses_are_resumed()
    ensures { CoursesAreResumed }
{}
