// The insulation mask of a plane map: plate and mask meet nowhere but where an edge crosses its own level segment.
